//! Literals and clauses.

ghost use Rattle.std.specs.Prelude.{◌≡◌, ◌≤◌, ◌^◌, ◌↔◌, IsTrue, IsSome, IfSome, unsigned_abs};

use smallvec::SmallVec;
use std::marker::Model;

/// A variable or its negation. Variables are numbered from 1 to 2^30.
#[derive(Clone, Copy, Debug, PartialEq, Eq, PartialOrd, Ord, Hash)]
pub struct Lit {
    code: u32,
}

impl Model for Lit {
    ghost use Rattle.std.specs.Prelude.{◌≤◌, ◌<◌, ◌^◌, ◌+◌};
    ghost use Rattle.qv_cnf.specs.Literal.{Literal, literal_at, index_of, index_of-literal_at};

    ghost Value = { Literal };

    ghost view = { λ a. literal_at a.code };

    ghost invariant = { λ a. (2 ≤ a.code) × (a.code < 2 ^ 31 + 2) };

    ghost inverse = { λ l. record { code = index_of l } };

    ghost inverse_ok = { λ a h. Prim.rw (index_of-literal_at a.code) };
}

impl Lit {
    /// The greatest number of a variable.
    pub const MAX_VARIABLE: u32 = 1 << 30;

    ghost use Rattle.qv_cnf.specs.Literal.{IsLiteral, literal_of, number_of, negated, index_of};

    /// The literal that the number names, as in DIMACS: a minus negates.
    pub fn new(number: i32) -> Option<Lit>
        ensures some { IsSome result ↔ IsLiteral (literal_of number) }
        ensures value { IfSome result (λ lit. lit ≡ literal_of number) }
    {
        let variable = number.unsigned_abs();
        if variable == 0 || variable > Self::MAX_VARIABLE {
            return None;
        }
        let sign = if number > 0 { 0 } else { 1 };
        Some(Lit {
            code: 2 * variable + sign,
        })
    }

    /// The number that names it.
    pub fn number(&self) -> i32
        ensures value { result ≡ number_of self.now }
        ensures literal { IsLiteral self.now }
    {
        let variable = (self.code / 2) as i32;
        if self.code % 2 == 0 {
            variable
        } else {
            -variable
        }
    }

    /// Its variable.
    pub fn variable(self) -> u32
        ensures value { result ≡ self.variable }
        ensures literal { IsLiteral self }
    {
        self.code / 2
    }

    /// Whether it is the variable, and not its negation.
    pub fn is_positive(self) -> bool
        ensures { result ≡ self.positive }
    {
        self.code % 2 == 0
    }

    /// The other literal of its variable.
    pub fn negated(self) -> Lit
        ensures { result ≡ negated self }
    {
        let code = if self.code % 2 == 0 {
            self.code + 1
        } else {
            self.code - 1
        };
        Lit { code }
    }

    /// Its place in a table with two places for each variable, from 2 to 2^31 + 1.
    pub fn index(self) -> usize
        ensures value { result ≡ index_of self }
        ensures literal { IsLiteral self }
    {
        self.code as usize
    }
}

/// What fills the places of a `Clause` that no literal has taken.
impl Default for Lit {
    ghost use Rattle.std.specs.Prelude.{pos};
    ghost use Rattle.qv_cnf.specs.Literal.{literal_of};

    ghost is_default = { λ lit. lit ≡ literal_of (pos 1) };

    /// The first variable.
    fn default() -> Lit {
        Lit { code: 2 }
    }
}

/// The literals of a clause, of which one at least is true. Most clauses of circuits have three.
pub type Clause = SmallVec<Lit, 4>;
