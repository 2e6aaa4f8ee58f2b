//! What refutations and derivations give, as contracts.

ghost use Rattle.qv_cnf.specs.Laws.{RupIsTrue, RefutedHasNoModel, DerivationWithoutLast};
ghost use Rattle.qv_cnf.specs.Rat.{RatKeepsModels, RupIsRat};

/// A clause that follows by its hints is true wherever the live clauses are.
pub fn rup_is_true()
    ensures { RupIsTrue }
{}

/// Clauses with a refutation have no model, where their ids rise.
pub fn refuted_has_no_model()
    ensures { RefutedHasNoModel }
{}

/// The steps before the last step of a derivation are a derivation.
pub fn derivation_without_last()
    ensures { DerivationWithoutLast }
{}

/// A clause that RAT hints show keeps satisfiability.
pub fn rat_keeps_models()
    ensures { RatKeepsModels }
{}

/// A clause that follows by its hints is one that RAT hints show.
pub fn rup_is_rat()
    ensures { RupIsRat }
{}
