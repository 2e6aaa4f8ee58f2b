//! What a small rule makes of an application.

use qv_words::Op;

/// What an application is, of which one argument is known: made of its other argument.
#[derive(Clone, Copy)]
pub enum Outcome {
    /// The argument.
    Argument,
    /// Its negation, or all its bits turned.
    Complement,
    /// The literal of this value and the argument's sort.
    Number(u128),
    /// A truth value.
    Truth(bool),
    /// An operator's application to the argument and the literal of this value and its sort.
    Under(Op, u128),
}
