//! Lines are printed.

ghost use Rattle.std.specs.Prelude.{◌≡◌, ◌++◌, OnOk, OnErr, Some, All};
ghost use Rattle.std.specs.List.{flat_map};
ghost use Rattle.qv_cnf.specs.LratLine.{Addition, Deletion, line_of};
ghost use Rattle.qv_cnf.specs.Literal.{IsLiteral};
ghost use Rattle.qv_lrat_text.specs.Grammar.{HasIds, HasLiterals, lrat_line};
ghost use Rattle.qv_lrat_text.specs.Spelling.{spelling};
ghost use Rattle.qv_lrat_text.specs.Words.{Keeps, spaced};

use crate::fault::NoMemory;
use crate::number::Number;
use qv_cnf::{Lit, Step};
use std::alloc::AllocError;

// Adds a word and a space for each number.
#[tactic(auto, using(crate::proofs::KeptLemmas::keeps_longer))]
fn push_numbers<T: Number>(numbers: &[T], out: &mut Vec<u8>) -> Result<(), AllocError>
    ensures ok { OnOk result
        (out.new.items ≡ out.old.items ++ flat_map (λ number. spaced (T.text number)) numbers.now) }
    ensures numbers { OnOk result (All T.is_number numbers.now) }
    ensures kept { Keeps out.old.items out.new.items }
{
    for number in numbers {
        number.push(out)?;
    }
    Ok(())
}

// Adds the line that adds a clause.
#[tactic(auto, using(crate::proofs::KeptLemmas::keeps_longer), unfolding(crate::specs::Spelling::spelling))]
fn push_addition(id: u64, lits: &[Lit], hints: &[i64], out: &mut Vec<u8>) -> Result<(), AllocError>
    ensures ok { OnOk result
        (out.new.items ≡ out.old.items ++ spelling (Addition id lits.now hints.now)) }
    ensures literals { OnOk result (All IsLiteral lits.now) }
    ensures kept { Keeps out.old.items out.new.items }
{
    id.push(out)?;
    push_numbers(lits, out)?;
    out.extend_from_slice(b"0 ")?;
    push_numbers(hints, out)?;
    out.extend_from_slice(b"0\n")?;
    Ok(())
}

// Adds the line that deletes clauses.
#[tactic(auto, using(crate::proofs::KeptLemmas::keeps_longer), unfolding(crate::specs::Spelling::spelling))]
fn push_deletion(id: u64, ids: &[u64], out: &mut Vec<u8>) -> Result<(), AllocError>
    ensures ok { OnOk result (out.new.items ≡ out.old.items ++ spelling (Deletion id ids.now)) }
    ensures kept { Keeps out.old.items out.new.items }
{
    id.push(out)?;
    out.extend_from_slice(b"d ")?;
    push_numbers(ids, out)?;
    out.extend_from_slice(b"0\n")?;
    Ok(())
}

// Adds the line. Where memory runs out, a part of it may be added.
fn push_line(step: &Step, out: &mut Vec<u8>) -> Result<(), AllocError>
    ensures ok { OnOk result (out.new.items ≡ out.old.items ++ spelling (line_of step.now)) }
    ensures literals { OnOk result (HasLiterals (line_of step.now)) }
    ensures kept { Keeps out.old.items out.new.items }
{
    match step {
        Step::Add { id, lits, hints } => push_addition(*id, lits, hints, out),
        Step::Delete { id, ids } => push_deletion(*id, ids, out),
    }
}

/// Adds the step as one line: decimal numbers with one space between words, and an LF. Where memory
/// runs out, nothing is added.
pub fn print_line(step: &Step, out: &mut Vec<u8>) -> Result<(), NoMemory>
    requires { HasIds (line_of step.now) }
    ensures printed { OnOk result (out.new.items ≡ out.old.items ++ spelling (line_of step.now)) }
    // What is printed reads as the same step.
    ensures reads { OnOk result
        (lrat_line (spelling (line_of step.now)) ≡ Some (line_of step.now)) }
    ensures err { OnErr result (out.new.items ≡ out.old.items) }
{
    let len = out.len();
    match push_line(step, out) {
        Ok(()) => Ok(()),
        Err(error) => {
            out.truncate(len);
            Err(error)
        }
    }
}
