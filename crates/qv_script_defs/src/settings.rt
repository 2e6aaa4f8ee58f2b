//! What the options of `set-option` take.

/// What an option takes.
#[derive(Clone, Copy)]
pub enum Setting {
    /// true or false: whether commands that print nothing else print `success`.
    Success,
    /// true or false: whether declarations and definitions outlive their levels.
    Global,
    /// true or false, without effect.
    Truth,
    /// A numeral.
    Numeral,
    /// "stdout", which is where answers go.
    Answers,
    /// "stderr" or "stdout", for what nothing is claimed of.
    Diagnostics,
    /// Any value, without effect: an option of another solver's own.
    Foreign,
}
