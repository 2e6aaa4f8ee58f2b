//! What pins clause lists down: each function's contract is a law.

ghost use Rattle.qv_check_clauses.specs.ClausesLaws.{ClausesAreRefuted};

/// The clauses of an accepted section are those that its refutation refutes.
pub fn clauses_are_refuted()
    ensures { ClausesAreRefuted }
{}
