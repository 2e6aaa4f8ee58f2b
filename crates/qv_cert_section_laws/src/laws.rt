//! What is known of Skolem sections and expansion lists: each function's contract is a law.

ghost use Rattle.qv_cert_section_laws.specs.SectionLaws.{SkolemSoundness, ExpansionSoundness};
ghost use Rattle.qv_cert_section_laws.specs.SectionLaws.{ExpansionByOneMore, FirstTermsWin};
ghost use Rattle.qv_cert_section_laws.specs.SectionLaws.{SkolemTermsWin};
ghost use Rattle.qv_cert_section_laws.specs.ByLine.{GoalsAreTerms, SkolemByOneMore, LeavesAreTerms};
ghost use Rattle.qv_cert_section_laws.specs.ByLine.{GrownByOneMore, LeavesByOneMore, ReadingByPaths};
ghost use Rattle.qv_cert_section_laws.specs.ByLine.{PathByOneMore, ReadingByLine, ReadingSoundness};

/// A problem holds where the goal of a Skolem section is true for no values.
pub fn skolem_soundness()
    ensures { SkolemSoundness }
{}

/// Where a Skolem section's goal is true for no values, the existential player wins from each point
/// to which its terms lead.
pub fn skolem_terms_win()
    ensures { SkolemTermsWin }
{}

/// So it does with the values of the terms of the first places, where these are existential.
pub fn first_terms_win()
    ensures { FirstTermsWin }
{}

/// A problem doesn't hold where no values make all leaves of an expansion list true.
pub fn expansion_soundness()
    ensures { ExpansionSoundness }
{}

/// Lines with one more are an expansion list exactly where they are one and the line may come
/// behind them.
pub fn expansion_by_one_more()
    ensures { ExpansionByOneMore }
{}

/// The goal of a Skolem section is a formula over the universal places.
pub fn goals_are_terms()
    ensures { GoalsAreTerms }
{}

/// Which term may come behind those of a Skolem section so far, and what it is there.
pub fn skolem_by_one_more()
    ensures { SkolemByOneMore }
{}

/// Each leaf of an expansion list is a formula over the eigenvariables of its lines.
pub fn leaves_are_terms()
    ensures { LeavesAreTerms }
{}

/// One more line of an expansion list stands behind those before.
pub fn grown_by_one_more()
    ensures { GrownByOneMore }
{}

/// The leaf of one more line, if it has one, comes behind those before.
pub fn leaves_by_one_more()
    ensures { LeavesByOneMore }
{}

/// What a reader keeps that holds each line's path, line by line.
pub fn reading_by_paths()
    ensures { ReadingByPaths }
{}

/// A line's path is its parent's with one more tree.
pub fn path_by_one_more()
    ensures { PathByOneMore }
{}

/// What a reader keeps that holds each line's tree so far, line by line.
pub fn reading_by_line()
    ensures { ReadingByLine }
{}

/// A problem doesn't hold where no values make all leaves true that were read line by line.
pub fn reading_soundness()
    ensures { ReadingSoundness }
{}
