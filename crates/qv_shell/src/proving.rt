//! A SAT solver's proof is checked beside a list of clauses.

ghost use Rattle.std.specs.Prelude.{◌≡◌, ◌≢◌, ◌≤◌, ◌⊎◌};
ghost use Rattle.qv_check_defs.specs.Limits.{MetLimit};
ghost use Rattle.qv_io.specs.Count.{Rose};
ghost use Rattle.qv_shell.specs.Checking.{IsEnd};
ghost use Rattle.qv_shell.specs.Lrat.{IsLratRun};

use crate::checking::{ending_status, halt_status};
use qv_gen::Status;
use qv_io::{Sink, Source};
use qv_lrat::check_proof;
use qv_lrat::laws::done_shows_no_model;
use std::alloc::Global;

/// Checks a proof beside a list of clauses, and gives the status.
pub(crate) fn prove<S: Source, C: Source, O: Sink>(
    alloc: Global,
    cnf: &mut S,
    proof: &mut C,
    out: &mut O,
) -> Status
    ensures run { IsLratRun (proof.new ≡ proof.old) (S.left cnf.old) (C.left proof.old)
        (O.held out.old) (O.held out.new) result }
    ensures read { result ≡ 3 → (Rose (S.faults cnf.old) (S.faults cnf.new)
        ⊎ Rose (C.faults proof.old) (C.faults proof.new))
        ⊎ (MetLimit S.read_gives (S.left cnf.old) cnf.old cnf.new
        ⊎ MetLimit C.read_gives (C.left proof.old) proof.old proof.new) }
    ensures write { result ≡ 4 → Rose (O.faults out.old) (O.faults out.new) }
    ensures complete { (Rose (S.faults cnf.old) (S.faults cnf.new) → ⊥)
        → (Rose (C.faults proof.old) (C.faults proof.new) → ⊥)
        → (MetLimit S.read_gives (S.left cnf.old) cnf.old cnf.new → ⊥)
        → (MetLimit C.read_gives (C.left proof.old) proof.old proof.new → ⊥)
        → (Rose (O.faults out.old) (O.faults out.new) → ⊥) → result ≢ 5 → IsEnd result }
    ensures cnf_count { S.faults cnf.old ≤ S.faults cnf.new }
    ensures proof_count { C.faults proof.old ≤ C.faults proof.new }
    ensures out_count { O.faults out.old ≤ O.faults out.new }
{
    done_shows_no_model();
    match check_proof(alloc, cnf, proof, out) {
        Ok(ending) => ending_status(ending),
        Err(halt) => halt_status(halt),
    }
}
