//! The greatest variable of a list's clauses.

ghost use Rattle.std.specs.Prelude.{◌≡◌, IfOk, max};
ghost use Rattle.std.specs.List.{fold};
ghost use Rattle.qv_cnf.specs.Listing.{clauses_of};
ghost use Rattle.qv_blast.specs.Blasters.{from_one};
ghost use Rattle.qv_solve_refute.specs.Feeding.{listed_in};
ghost use Rattle.qv_solve_refute.specs.Greatest.{greatest_variable};

use qv_cnf::{ClauseList, Lit};
use qv_store::NoMemory;
use std::alloc::AllocError;

// The greatest variable of these clauses, whose ids count from 1.
pub(crate) fn greatest_variable(clauses: &ClauseList) -> Result<u32, NoMemory>
    requires { clauses.now ≡ from_one (clauses_of clauses.now.live) }
    ensures { IfOk result (λ greatest. greatest ≡ greatest_variable (listed_in clauses.now)) }
{
    let mut greatest = 0;
    'clauses: for id in 1..u64::MAX {
        match clauses.get(id) {
            Some(lits) => greatest = greatest_behind(greatest, lits),
            None => return Ok(greatest),
        }
    }
    // Memory holds no such list.
    Err(AllocError)
}

// The greatest of this number and the variables of literals.
fn greatest_behind(number: u32, lits: &[Lit]) -> u32
    ensures { result ≡ fold (λ m l. max m l.variable) number lits.now }
{
    lits.iter()
        .fold(number, |greatest, lit| greatest.max(lit.variable()))
}
