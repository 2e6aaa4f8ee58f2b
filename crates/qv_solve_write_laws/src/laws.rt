//! What is known of the lines that list: each function's contract is a law.

ghost use Rattle.qv_solve_write_laws.specs.WritingLaws.{TermsAreWritten, TreesAreWritten};

/// The lines of a Skolem section's terms list these terms, and none of them has a fault.
pub fn terms_are_written()
    ensures { TermsAreWritten }
{}

/// The lines of an expansion list list it, and none of them has a fault.
pub fn trees_are_written()
    ensures { TreesAreWritten }
{}
