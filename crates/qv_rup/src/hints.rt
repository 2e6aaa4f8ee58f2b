//! What the clause of a hint says where the literals of a set are true.

ghost use Rattle.std.specs.Prelude.{◌≡◌, List, IfSome, IfNone, IsTrue, pos};
ghost use Rattle.std.specs.Int.{is_negative};
ghost use Rattle.qv_cnf.specs.Listing.{clause_named};
ghost use Rattle.qv_cnf.specs.Literal.{Literal};
ghost use Rattle.qv_cnf.specs.Rat.{judged_along};
ghost use Rattle.qv_cnf.specs.Refutation.{reading_of, open_literals, hint_reading};
ghost use Rattle.qv_rup.specs.Judged.{IsFirstPart};

use super::faults::StepFault;
use super::marks::Marks;
use super::shelf::Shelf;
use qv_cnf::{Lit, Reading};

// What the clause says where the marked literals are true.
pub(crate) fn read_clause(lits: &[Lit], marks: &Marks) -> Reading
    ensures { result ≡ reading_of marks.now (open_literals marks.now lits.now) }
{
    let mut found: Option<Lit> = None;
    for lit in lits {
        if marks.has(lit.negated()) {
            continue;
        }
        match found {
            None => found = Some(*lit),
            Some(first) => {
                if first != *lit {
                    return Reading::Useless;
                }
            }
        }
    }
    match found {
        None => Reading::Falsified,
        Some(lit) => {
            if marks.has(lit) {
                Reading::Useless
            } else {
                Reading::Forced(lit)
            }
        }
    }
}

// What the clause of that id says, if it is live.
pub(crate) fn read_hint(clauses: &Shelf, marks: &Marks, id: u64) -> Reading
    ensures { result ≡ hint_reading marks.now (clause_named id clauses.now.live) }
{
    match clauses.get(id) {
        Some(lits) => read_clause(lits, marks),
        None => Reading::Useless,
    }
}

// The id that a positive hint names; a negative one opens a group.
fn id_of(hint: i64) -> Option<u64>
    ensures some { IfSome result (λ id. hint ≡ pos id) }
    ensures none { IfNone result (IsTrue (is_negative hint)) }
{
    if hint < 0 { None } else { Some(hint as u64) }
}

/// Goes along the first part of the hints, up to the first negative one, where the marked literals
/// are true. What the hints force is marked. Where no clause was false, the answer is the place
/// behind the part.
pub(crate) fn judge_first(
    clauses: &Shelf,
    marks: &mut Marks,
    hints: &[i64],
) -> Result<Option<usize>, StepFault>
    ensures { (lits : List Literal) → IsFirstPart clauses.now.live lits hints.now marks.new result
        (judged_along clauses.now.live lits hints.now 1 marks.old) }
{
    'going: for (place, hint) in hints.iter().enumerate() {
        let Some(id) = id_of(*hint) else {
            return Ok(Some(place));
        };
        match read_hint(clauses, marks, id) {
            Reading::Falsified => return Ok(None),
            Reading::Forced(lit) => marks.insert(lit)?,
            Reading::Useless => {
                return Err(StepFault::Hint {
                    hint: place as u64 + 1,
                });
            }
        }
    }
    Ok(Some(hints.len()))
}
