//! What commands do beside their moves.

use qv_store::Id;

/// A term whose value is asked for, with its tokens as they are written.
#[derive(Debug, Drop)]
pub struct ValueTerm {
    pub text: Vec<u8>,
    pub id: Id,
}

/// What a command does beside its move.
#[derive(Debug, Drop)]
pub enum Effect {
    Quiet,
    /// Prints a text.
    Text(Vec<u8>),
    /// Checks the assertions in force.
    Check,
    /// Checks the assertions in force and the assumptions behind them.
    CheckAssuming,
    /// Prints the values of terms.
    Values(Vec<ValueTerm>),
    /// Prints the values of all constants in force.
    Whole,
    /// Prints the names of a core of what the last check was of.
    Core,
    /// Prints the assumptions of a core of what the last check was of, as they are written.
    AssumedCore,
    Exit,
}
