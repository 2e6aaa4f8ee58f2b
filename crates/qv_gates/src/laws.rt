//! What the steps of a closure give, as contracts.

ghost use Rattle.qv_gates.specs.Laws.{AddedAreTrue, RefutesBehind};

use qv_cnf::laws::rup_is_true;

/// The clauses that are added are true wherever those of the base are.
pub fn added_are_true()
    ensures { AddedAreTrue }
{
    rup_is_true();
}

/// What refutes the base with the clauses that are added refutes the base, behind the steps.
pub fn refutes_behind()
    ensures { RefutesBehind }
{}
