//! Closures of clause lists.

ghost use Rattle.std.specs.Prelude.{◌≡◌};
ghost use Rattle.qv_gates.specs.Closing.{no_clauses};

use crate::printing::{say_equal, say_found};
use qv_cases_rows::{Answer, Cases, Words};
use qv_cnf::Lit;
use qv_gates::Closure;
use std::alloc::{AllocError, Global};

// No case comes near this number.
const FAR: usize = 1 << 40;

enum Call {
    Close,
    Same,
    Apart,
}

static CALLS: [(&str, Call); 3] = [
    ("close", Call::Close),
    ("same", Call::Same),
    ("apart", Call::Apart),
];

/// The cases have no state.
#[derive(Clone, Copy)]
pub(crate) struct GateCases {
    pub(crate) alloc: Global,
}

impl Cases for GateCases {
    fn answer(&mut self, words: &mut Words<'_>, out: &mut Answer) {
        let mut closure = Closure::new(self.alloc);
        match words.pick(&CALLS) {
            Some(Call::Close) => close(self.alloc, &mut closure, words, out),
            Some(Call::Same) => many(self.alloc, &mut closure, words, out, 0),
            Some(Call::Apart) => many(self.alloc, &mut closure, words, out, 1),
            None => out.refuse(),
        }
    }
}

// `close ROUNDS CLAUSES`, each with a 0 behind it
fn close(alloc: Global, closure: &mut Closure, words: &mut Words<'_>, out: &mut Answer)
    requires { closure.old ≡ no_clauses }
{
    let rounds = words.number();
    let clauses = words.lists(alloc, literal);
    if words.are_read() && fill(closure, &clauses) && closure.close(rounds).is_ok() {
        say_found(closure, variables(&clauses), clauses.len(), out);
    } else {
        out.refuse();
    }
}

// `same COUNT` and `apart COUNT`: so many conjunctions of two variables, or of each two neighbours
fn many(alloc: Global, closure: &mut Closure, words: &mut Words<'_>, out: &mut Answer, by: u32)
    requires { closure.old ≡ no_clauses }
{
    let count = words.number();
    match conjunctions(alloc, count, by) {
        Ok(clauses) => {
            if fill(closure, &clauses) && closure.close(2).is_ok() {
                say_equal(closure, variables(&clauses), out);
            } else {
                out.refuse();
            }
        }
        Err(_) => out.refuse(),
    }
}

fn conjunctions(alloc: Global, count: u32, by: u32) -> Result<Vec<Vec<Lit>>, AllocError> {
    let mut clauses = Vec::new(alloc);
    for at in 0..count {
        let first = 1u32.wrapping_add(at.wrapping_mul(by));
        let output = 2u32.wrapping_add(count).wrapping_add(at);
        add_conjunction(alloc, first, output, &mut clauses)?;
    }
    Ok(clauses)
}

// The clauses of the conjunction of a variable and the next one, if there are such variables.
fn add_conjunction(
    alloc: Global,
    first: u32,
    output: u32,
    clauses: &mut Vec<Vec<Lit>>,
) -> Result<(), AllocError> {
    let (Some(a), Some(b), Some(g)) = (
        variable(first),
        variable(first.wrapping_add(1)),
        variable(output),
    ) else {
        return Ok(());
    };
    add_clause(alloc, &[g.negated(), a], clauses)?;
    add_clause(alloc, &[g.negated(), b], clauses)?;
    add_clause(alloc, &[g, a.negated(), b.negated()], clauses)
}

fn add_clause(alloc: Global, lits: &[Lit], clauses: &mut Vec<Vec<Lit>>) -> Result<(), AllocError> {
    let lits = Vec::from_slice(alloc, lits)?;
    add(lits, clauses)
}

fn add<T: Drop>(one: T, all: &mut Vec<T>) -> Result<(), AllocError> {
    Ok(all.push(one)?)
}

fn variable(number: u32) -> Option<Lit> {
    Lit::new(i32::try_from(number).ok()?)
}

// Gives the clauses to a closure, under the ids from 1 on.
fn fill(closure: &mut Closure, clauses: &[Vec<Lit>]) -> bool
    requires { closure.old ≡ no_clauses }
{
    'lists: for (place, lits) in clauses.iter().enumerate() {
        if place >= FAR || closure.add(place as u64 + 1, lits).is_err() {
            return false;
        }
    }
    true
}

// The greatest variable.
fn variables(clauses: &[Vec<Lit>]) -> u32 {
    let mut most = 0;
    for lits in clauses {
        most = most.max(greatest(lits));
    }
    most
}

fn greatest(lits: &[Lit]) -> u32 {
    let mut most = 0;
    for lit in lits {
        most = most.max(lit.variable());
    }
    most
}

fn literal(word: &str) -> Option<Lit> {
    Lit::new(word.parse::<i32>().ok()?)
}
