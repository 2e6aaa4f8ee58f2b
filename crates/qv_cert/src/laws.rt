//! What is known of the definitions: each function's contract is a law.

ghost use Rattle.qv_cert.specs.TextLaws.{TextsAreTheirLines, TextsGoOn};
ghost use Rattle.qv_cert.specs.ClauseList.{ClausesMeanTheSame};
ghost use Rattle.qv_cert.specs.FaultLaws.{FaultsAreInOrder, TermLinesHaveNoFault};
ghost use Rattle.qv_cert.specs.FaultLaws.{InstanceLinesHaveNoFault, EigenLinesHaveNoFault};
ghost use Rattle.qv_cert.specs.Shown.{AcceptedAreSections, SectionsAreAccepted};
ghost use Rattle.qv_cert.specs.SoFar.{SectionsBegin, SectionsGoOn};
ghost use Rattle.qv_cert.specs.Spelling.{PrintedLinesAreRead, ReadLinesAreCertLines};
ghost use Rattle.qv_cert.specs.Streaming.{StateIsEnough, AnswersStay, RefusalsStay};

/// The lines of a text and what is behind them are the text.
pub fn texts_are_their_lines()
    ensures { TextsAreTheirLines }
{}

/// More bytes add lines behind those so far.
pub fn texts_go_on()
    ensures { TextsGoOn }
{}

/// The faults of a line are tried in the order of their kinds.
pub fn faults_are_in_order()
    ensures { FaultsAreInOrder }
{}

/// A line without faults that gives a place its term, in plain words.
pub fn term_lines_have_no_fault()
    ensures { TermLinesHaveNoFault }
{}

/// A line without faults that puts a term in for a universal, in plain words.
pub fn instance_lines_have_no_fault()
    ensures { InstanceLinesHaveNoFault }
{}

/// A line without faults that puts an eigenvariable in for an existential, in plain words.
pub fn eigen_lines_have_no_fault()
    ensures { EigenLinesHaveNoFault }
{}

/// The judgement of the lines behind others needs the state alone in which those leave the section.
pub fn state_is_enough()
    ensures { StateIsEnough }
{}

/// An accepted section stays accepted whatever lines follow.
pub fn answers_stay()
    ensures { AnswersStay }
{}

/// A refused section stays refused whatever lines follow, unless lines were missing.
pub fn refusals_stay()
    ensures { RefusalsStay }
{}

/// What is accepted is a section of its answer: its Skolem terms or its expansion list are in
/// order, and its last lines refute their clauses.
pub fn accepted_are_sections()
    ensures { AcceptedAreSections }
{}

/// A section of its answer is accepted.
pub fn sections_are_accepted()
    ensures { SectionsAreAccepted }
{}

/// Of nothing listed there is nothing to know.
pub fn sections_begin()
    ensures { SectionsBegin }
{}

/// What is known of the lines that a section has listed stays so behind one more line that has no
/// fault.
pub fn sections_go_on()
    ensures { SectionsGoOn }
{}

/// A line that is printed reads as the same line.
pub fn printed_lines_are_read()
    ensures { PrintedLinesAreRead }
{}

/// The numbered clause list of formulas has the models of their clauses.
pub fn clauses_mean_the_same()
    ensures { ClausesMeanTheSame }
{}

/// A line that is read has its numbers in their ranges.
pub fn read_lines_are_cert_lines()
    ensures { ReadLinesAreCertLines }
{}
