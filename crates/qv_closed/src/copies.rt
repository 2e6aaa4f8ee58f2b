//! Copies of steps.

ghost use Rattle.std.specs.Prelude.{◌≡◌, ◌++◌, IfOk, OnOk};
ghost use Rattle.qv_cnf.specs.LratLine.{line_of, lines_of};

use qv_cnf::Step;
use std::alloc::{AllocError, Global};

/// Puts copies of steps behind others.
pub fn push_copies(alloc: Global, into: &mut Vec<Step>, steps: &[Step]) -> Result<(), AllocError>
    ensures { OnOk result (lines_of into.new.items ≡ lines_of into.old.items ++ lines_of steps.now) }
{
    'copied: for step in steps {
        let copy = copy_step(alloc, step)?;
        into.push(copy)?;
    }
    Ok(())
}

// The same step.
fn copy_step(alloc: Global, step: &Step) -> Result<Step, AllocError>
    ensures { IfOk result (λ copy. line_of copy ≡ line_of step.now) }
{
    match step {
        Step::Add { id, lits, hints } => {
            let lits = Vec::from_slice(alloc, lits)?;
            let hints = Vec::from_slice(alloc, hints)?;
            Ok(Step::Add {
                id: *id,
                lits,
                hints,
            })
        }
        Step::Delete { id, ids } => {
            let ids = Vec::from_slice(alloc, ids)?;
            Ok(Step::Delete { id: *id, ids })
        }
    }
}
