//! What is known of the lines of sections: each function's contract is a law.

ghost use Rattle.qv_solve_section.specs.SectionLaws.{PrintedSectionsAreAccepted};

/// The lines of a section are accepted as they are printed.
pub fn printed_sections_are_accepted()
    ensures { PrintedSectionsAreAccepted }
{}
