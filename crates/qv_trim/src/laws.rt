//! What pins trimming down: each function's contract is a law.

ghost use Rattle.qv_trim.specs.TrimLaws.{KeptLinesRefute, LinesCanBeTrimmed, TrimmedAreOne};
ghost use Rattle.qv_trim.specs.TrimLaws.{SectionsCanBeTrimmed, TrimmedSectionsStand};

/// What is kept of a refutation refutes the same clauses.
pub fn kept_lines_refute()
    ensures { KeptLinesRefute }
{}

/// A refutation is trimmed in one way.
pub fn trimmed_are_one()
    ensures { TrimmedAreOne }
{}

/// Each list of lines can be trimmed: which ids are needed can be found out.
pub fn lines_can_be_trimmed()
    ensures { LinesCanBeTrimmed }
{}

/// Each accepted section can be trimmed.
pub fn sections_can_be_trimmed()
    ensures { SectionsCanBeTrimmed }
{}

/// A trimmed section, as it is printed, is one of the same answer.
pub fn trimmed_sections_stand()
    ensures { TrimmedSectionsStand }
{}
