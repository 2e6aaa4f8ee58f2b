//! What is known of conjuncts: each function's contract is a law.

ghost use Rattle.qv_choose.specs.Conjuncts.{ConjunctsDecideChoices, ConjunctsTakeTerms};

/// The choice for a place by the conjuncts in which it stands is the choice by the whole region,
/// where that is true at the point.
pub fn conjuncts_decide_choices()
    ensures { ConjunctsDecideChoices }
{}

/// With a term put in for a variable, a formula has its conjuncts with the term put in.
pub fn conjuncts_take_terms()
    ensures { ConjunctsTakeTerms }
{}
