//! Literals by their variable and sign.

use qv_cnf::Lit;

/// The literal of a variable, which 0 isn't.
pub fn literal(variable: u32) -> Option<Lit> {
    match i32::try_from(variable) {
        Ok(number) => Lit::new(number),
        Err(_) => None,
    }
}

/// A literal or its negation.
pub fn signed(lit: Lit, positive: bool) -> Lit {
    if positive { lit } else { lit.negated() }
}
