//! What is known of transcripts and of their certificates: each function's contract is a law.

ghost use Rattle.qv_script_transcript.specs.CheckLaws.{ChecksAreOverConstants};
ghost use Rattle.qv_script_transcript.specs.FollowingLaws.{AnswersDecide, SomeFollow};
ghost use Rattle.qv_script_transcript.specs.CertificateLaws.{CertificatesAreAccepted, LinesAreTheirText};
ghost use Rattle.qv_script_transcript.specs.CertificateLaws.{AcceptedCertificatesCheck};
ghost use Rattle.qv_script_transcript.specs.PrintedLines.{PrintedLinesStand};

/// Each constant of what a check asks for is in force, with its sort.
pub fn checks_are_over_constants()
    ensures { ChecksAreOverConstants }
{}

/// The answers of its checks, with what was counted for them, and what is kept of its cores decide
/// what a script prints, and how it ends.
pub fn answers_decide()
    ensures { AnswersDecide }
{}

/// Each script has a transcript, and a certificate.
pub fn some_follow()
    ensures { SomeFollow }
{}

/// The bytes of lines are these lines.
pub fn lines_are_their_text()
    ensures { LinesAreTheirText }
{}

/// Sections of a transcript's checks make a certificate that is accepted.
pub fn certificates_are_accepted()
    ensures { CertificatesAreAccepted }
{}

/// The check of an accepted certificate prints the same answers.
pub fn accepted_certificates_check()
    ensures { AcceptedCertificatesCheck }
{}

/// What is printed for a line is one line of a text, and reads there as the same line.
pub fn printed_lines_stand()
    ensures { PrintedLinesStand }
{}
