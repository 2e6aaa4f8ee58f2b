//! What a checker makes of the clauses and steps of a core, as contracts.

ghost use Rattle.qv_sat.specs.Laws.{DerivationIsAccepted, EmptyClauseRefutes, WholeFeedingRefutes};

/// A checker accepts a derivation whose ids are in order.
pub fn derivation_is_accepted()
    ensures { DerivationIsAccepted }
{}

/// A checker is refuted by a clause without literals.
pub fn empty_clause_refutes()
    ensures { EmptyClauseRefutes }
{}

/// Where all clauses come before the first step, steps that a checker accepts and that refute it
/// refute the clauses.
pub fn whole_feeding_refutes()
    ensures { WholeFeedingRefutes }
{}
