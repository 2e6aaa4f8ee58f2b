//! The assumptions that a false literal depends on.

ghost use Rattle.std.specs.Prelude.{◌≡◌, ◌≢◌, ◌⊎◌, ℕ, ◌-◌, ◌<◌, ◌≤◌, true, false, None, Some, All};
ghost use Rattle.std.specs.Prelude.{[], IfOk, IsTrue, length, slice_get, slice_index_or};
ghost use Rattle.std.specs.List.{list_all};
ghost use Rattle.qv_cnf.specs.Literal.{IsLiteral};
ghost use Rattle.qv_watch.specs.Entries.{Entry, value_of};
ghost use Rattle.qv_watch.specs.TrailState.{IsTrail};
ghost use Rattle.qv_sat.specs.Deciding.{NoModelWith};
ghost use Rattle.qv_sat.specs.Marking.{is_marked, AllMarked, IsDecision};

use qv_cnf::Lit;
use qv_watch::Trail;
use std::alloc::{AllocError, Global};

// The false literal, and the literals that were assumed and that it is false by. With them all the
// clauses have no model.
pub(crate) fn failed_core(
    alloc: Global,
    trail: &Trail,
    failed: Lit,
    variables: u32,
) -> Result<Vec<Lit>, AllocError>
    requires trail { IsTrail trail.now }
    requires room { trail.now.room ≡ variables }
    requires failed { value_of trail.now.entries failed ≡ Some false }
    ensures no_model { IfOk result (λ core. NoModelWith trail.now.clauses core.items) }
    ensures decisions { IfOk result (λ core.
        All (λ l. (l ≡ failed) ⊎ IsDecision trail.now.entries l) core.items) }
    ensures some { IfOk result (λ core. core.items ≢ []) }
{
    let mut marks = vec![in alloc; false; variables as usize]?;
    let mut core = Vec::new(alloc);
    core.push(failed)?;
    mark(&mut marks, failed);
    let order = trail.order();
    let mut left = order.len();
    while left > 0 {
        left -= 1;
        let lit = order[left];
        if has_mark(&marks, lit) {
            if let Some(id) = trail.reason(lit) {
                mark_clause(&mut marks, trail, id);
            } else {
                core.push(lit)?;
            }
        }
    }
    Ok(core)
}

// Marks the literal's variable.
fn mark(marks: &mut [bool], lit: Lit)
    requires { lit.variable ≤ length marks.old }
    ensures marked { is_marked marks.new lit.variable ≡ true }
    ensures kept { (v : ℕ) → is_marked marks.old v ≡ true → is_marked marks.new v ≡ true }
{
    marks[lit.variable() as usize - 1] = true;
}

fn has_mark(marks: &[bool], lit: Lit) -> bool
    ensures { result ≡ is_marked marks.now lit.variable }
{
    match marks.get(lit.variable() as usize - 1) {
        Some(marked) => *marked,
        None => false,
    }
}

// Marks the variables of the clause of that id.
fn mark_clause(marks: &mut [bool], trail: &Trail, id: u64)
    requires trail { IsTrail trail.now }
    requires room { trail.now.room ≡ length marks.old }
    ensures marked { AllMarked trail.now.clauses id marks.new }
    ensures kept { (v : ℕ) → is_marked marks.old v ≡ true → is_marked marks.new v ≡ true }
{
    if let Some(lits) = trail.clause(id) {
        mark_all(marks, lits);
    }
}

fn mark_all(marks: &mut [bool], lits: &[Lit])
    requires { All (λ l. l.variable ≤ length marks.old) lits.now }
    ensures marked { All (λ l. is_marked marks.new l.variable ≡ true) lits.now }
    ensures kept { (v : ℕ) → is_marked marks.old v ≡ true → is_marked marks.new v ≡ true }
{
    for lit in lits {
        mark(marks, *lit);
    }
}
