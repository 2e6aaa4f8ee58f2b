//! What a verdict shows: each function's contract is a law.

ghost use Rattle.qv_check_script.specs.BesideLaws.{AnswersAreTrue};

/// The answers that are accepted beside a script are true of what it asserts.
pub fn answers_are_true()
    ensures { AnswersAreTrue }
{}
