//! What is known of printed sections: each function's contract is a law.

ghost use Rattle.qv_shell_answer.specs.PrintedLaws.{PrintedSectionsStand};

/// The lines of a section are one as they stand in a text.
pub fn printed_sections_stand()
    ensures { PrintedSectionsStand }
{}
