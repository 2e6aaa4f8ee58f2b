//! What a script holds beside its scope.

use qv_script_defs::SpentWord;
use qv_words::{Sort, Word};

/// A constant that is declared.
#[derive(Debug, Drop)]
pub struct Declared {
    pub name: Vec<u8>,
    pub sort: Sort,
}

/// An assertion that has a name, by its number among those in force.
#[derive(Debug, Drop)]
pub struct Named {
    pub name: Vec<u8>,
    pub assertion: u64,
}

/// An option that was set, with its value as it is written.
#[derive(Debug, Drop)]
pub struct Chosen {
    pub key: Vec<u8>,
    pub value: Vec<u8>,
}

/// The answer of a check: values of the constants that were in force, in the order of their
/// declaration, that make the formulas true, or why there is no answer.
#[derive(Debug, Drop)]
pub enum Last {
    Sat { values: Vec<Word> },
    Unsat,
    Unknown { spent: SpentWord },
}

/// How many names were in force, and whether anything was ever declared, defined or asserted.
#[derive(Clone, Copy)]
pub struct Mark {
    pub(crate) names: usize,
    pub(crate) begun: bool,
}

/// How many of each there were when a level was opened.
#[derive(Clone, Copy)]
pub(crate) struct Level {
    pub(crate) assertions: usize,
    pub(crate) named: usize,
    pub(crate) constants: usize,
}
