//! What lines list.

ghost use Rattle.std.specs.Prelude.{IfOk};
ghost use Rattle.qv_store.specs.Stores.{Grows};
ghost use Rattle.qv_store.specs.Problems.{problem_in, IsPosedIn};
ghost use Rattle.qv_cert.specs.Listed.{listed_by, nothing};
ghost use Rattle.qv_cert.specs.Shown.{HaveNoFault};
ghost use Rattle.qv_cert_nodes.specs.Pushing.{Lists};
ghost use Rattle.qv_solve_write.specs.Said.{lines_said};

use qv_cert::Line;
use qv_cert_nodes::{Listed, list};
use qv_store::{NoMemory, Problem, Store};
use std::alloc::Global;

// What lines without faults list.
pub(crate) fn list_all(
    alloc: Global,
    store: &mut Store,
    problem: &Problem,
    lines: &[Line],
) -> Result<Listed, NoMemory>
    requires posed { IsPosedIn store.old problem.now }
    requires lawful { HaveNoFault (problem_in store.old problem.now) nothing
        (lines_said lines.now) }
    ensures lists { IfOk result (λ listed. Lists store.new (problem_in store.old problem.now)
        listed (listed_by (problem_in store.old problem.now) (lines_said lines.now))) }
    ensures grows { Grows store.old store.new }
{
    let _nodes = store.len();
    let mut listed = Listed::new(alloc);
    'taken: for line in lines {
        list(&mut listed, store, problem, line)?;
    }
    Ok(listed)
}
