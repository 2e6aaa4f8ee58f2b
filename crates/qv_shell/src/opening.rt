//! What the program has to open before it runs.

/// What the program has to open before it runs.
#[derive(Debug, Drop)]
pub enum Plan {
    /// The files of a script and of a certificate to be written, by the words that name them.
    Solve {
        script: String,
        cert: String,
    },
    /// The files of a script and of a certificate to be read.
    Check {
        script: String,
        cert: String,
    },
    /// The files of a script and of a certificate to be read, and of one to be written.
    Trim {
        script: String,
        cert: String,
        to: String,
    },
    /// Nothing.
    Alone,
    /// Nothing, since the words are refused.
    Refused,
    /// Memory ran out.
    NoMemory,
}
