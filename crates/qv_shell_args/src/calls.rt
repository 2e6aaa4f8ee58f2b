//! What a command line may ask for.

ghost use Rattle.std.specs.Prelude.{◌≡◌};
ghost use Rattle.qv_shell_args.specs.declared.calls.CallFault.TheVariants.{NoMemory};

use std::alloc::AllocError;

/// How much may be spent: each count from 1 on, below 2^60, and variables up to 2^30.
#[derive(Clone, Copy, Debug, PartialEq, Eq)]
pub struct Budgets {
    pub conflicts: u64,
    pub instances: u64,
    pub variables: u32,
}

/// How a script is solved.
#[derive(Clone, Copy, Debug, PartialEq, Eq)]
pub struct Settings {
    /// How much may be spent on a check.
    pub budgets: Budgets,
    /// How many variables a prefix may have, from 1 to 1,000,000.
    pub places: u32,
    /// Whether each section is checked before its answer is printed.
    pub check: bool,
    /// Whether what was spent is said now and then.
    pub verbose: bool,
    /// Whether the sums are said behind the run.
    pub stats: bool,
}

/// What is printed of the program itself.
#[derive(Clone, Copy, Debug, PartialEq, Eq)]
pub enum Page {
    /// How it is called.
    Help,
    /// Which version it is.
    Version,
}

/// A command with what it is given.
#[derive(Debug, Drop)]
pub enum Call {
    /// Solve a script and write a certificate. Both are named by their words.
    Solve {
        script: String,
        cert: String,
        settings: Settings,
    },
    /// Check a certificate against a script. A prefix has at most so many places.
    Check {
        script: String,
        cert: String,
        places: u32,
    },
    /// Check a proof of a SAT solver beside a list of clauses.
    Lrat {
        cnf: String,
        proof: String,
    },
    /// Check a certificate against a script, and write it anew with the lines that are needed.
    Trim {
        script: String,
        cert: String,
        to: String,
        places: u32,
    },
    /// Check a certificate against a script, and write the clauses that its sections refute.
    Clauses {
        script: String,
        cert: String,
        places: u32,
    },
    /// Solve a quantified Boolean formula and write a certificate.
    QSolve {
        file: String,
        cert: String,
        settings: Settings,
    },
    /// Check a certificate against a quantified Boolean formula.
    QCheck {
        file: String,
        cert: String,
        places: u32,
    },
    /// Write the script of a number.
    Gen(u64),
    /// Solve the script of a number and check its certificate.
    Bench(u64),
    /// Print a page.
    Print(Page),
}

/// Why words gave no call.
#[derive(Clone, Copy, Debug, PartialEq, Eq)]
pub enum CallFault {
    /// They are no call.
    Refused,
    /// Memory ran out.
    NoMemory,
}

impl From<AllocError> for CallFault {
    ghost from_gives = { λ _ fault. fault ≡ NoMemory };

    fn from(_error: AllocError) -> CallFault {
        CallFault::NoMemory
    }
}
