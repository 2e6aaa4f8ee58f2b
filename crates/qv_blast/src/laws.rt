//! What is known of blasters: each function's contract is a law.

ghost use Rattle.qv_blast.specs.BlasterLaws.{BlastersStay, FormulasStay, ModelsStay};
ghost use Rattle.qv_blast.specs.BlasterLaws.{NumberedFromOne};

/// Where a store has grown, a blaster that was used with it stands where it stood.
pub fn blasters_stay()
    ensures { BlastersStay }
{}

/// Where a store has grown, a blaster has the clause list of the same formulas in it.
pub fn formulas_stay()
    ensures { FormulasStay }
{}

/// The clauses of formulas, numbered from 1, are those that a checker of refutations is given.
pub fn numbered_from_one()
    ensures { NumberedFromOne }
{}

/// Clauses that are those of formulas, ids aside, are true under the same assignments as theirs.
pub fn models_stay()
    ensures { ModelsStay }
{}
