//! Says what is answered about the formulas of standard input, a line for each case:
//! `solve NUMBER CONFLICTS INSTANCES VARIABLES SORTS/TERMS` names the answer to the check of this
//! number within these limits, or what was spent, and what the checker says of the section that
//! came with it, as it is printed. With `sat` come the indices of the constants that have values;
//! the formulas are then solved again with these values asserted besides. `values` says the values
//! too, `count` what was charged, and `text` the section's lines.
//! `each KIND MOST SORTS/TERMS` says the answers with each limit of that kind from 1 to MOST, where
//! they differ from the one before. `checks SORTS/LIMITS TERMS|LIMITS TERMS|..` says the answers of
//! one check after another over one store and one meter. The sorts are those of the constants.
//! Terms are written with the arguments before their operator, as `v0:8 8:3 bvadd`, and quantifiers
//! behind their body, as `v0:bool All:0:bool`. `game` stands before cases of games, and `meter` before
//! calls of a meter; `offer` says which formulas may be left out together, and `shared` which words
//! checks are offered.
#![tactic(auto)]

mod asking;
mod boards;
mod cases;
mod covering;
mod games;
mod judging;
mod limits;
mod meters;
mod offers;
mod records;
mod saying;
mod scripts;
mod sharing;
mod winning;

use cases::SolveCases;
use qv_cases_rows::answer_all;
use std::io;

fn main(rt: HostRuntime) -> io::Result<()> {
    let mut cases = SolveCases { alloc: rt.alloc() };
    answer_all(&rt, &mut cases)
}
