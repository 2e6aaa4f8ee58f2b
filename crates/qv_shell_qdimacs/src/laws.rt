//! What is known of verdicts beside files: each function's contract is a law.

ghost use Rattle.qv_shell_qdimacs.specs.Laws.{FileAnswersAreTrue, SolvedFilesAreAccepted};

/// The answers that are accepted beside a text are true of its file.
pub fn file_answers_are_true()
    ensures { FileAnswersAreTrue }
{}

/// The certificate of a section is accepted beside a text of its file.
pub fn solved_files_are_accepted()
    ensures { SolvedFilesAreAccepted }
{}
