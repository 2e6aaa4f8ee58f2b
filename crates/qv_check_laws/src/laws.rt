//! What is known of the definitions, and what an accepted section of a certificate shows: each
//! function's contract is a law.

ghost use Rattle.std.specs.Prelude.{ℕ};
ghost use Rattle.qv_check_laws.specs.VerdictLaws.{VerdictsShow};
ghost use Rattle.qv_check_laws.specs.AnswerLaws.{SatSectionsHold, UnsatSectionsFail, SatIsTrue};
ghost use Rattle.qv_check_laws.specs.AnswerLaws.{UnsatIsTrue, VerdictsAreTrue};

/// The accepted sections of a verdict are sections of their answers.
pub fn verdicts_show()
    ensures { VerdictsShow ℕ }
{}

/// Where a sat section is accepted the problem holds.
pub fn sat_sections_hold()
    ensures { SatSectionsHold }
{}

/// Where an unsat section is accepted the problem doesn't hold.
pub fn unsat_sections_fail()
    ensures { UnsatSectionsFail }
{}

/// Where a sat section for what is asserted is accepted it is true.
pub fn sat_is_true()
    ensures { SatIsTrue }
{}

/// Where an unsat section for what is asserted is accepted it isn't true.
pub fn unsat_is_true()
    ensures { UnsatIsTrue }
{}

/// The answers that a verdict accepts are true.
pub fn verdicts_are_true()
    ensures { VerdictsAreTrue ℕ }
{}
