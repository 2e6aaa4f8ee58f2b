//! The names of terms in a store.

ghost use Rattle.std.specs.Prelude.{◌≡◌};

use std::marker::Model;

/// A term of a store, by its number there. It says nothing without the store.
#[derive(Clone, Copy, Debug, PartialEq, Eq, PartialOrd, Ord, Hash)]
pub struct Id {
    number: u32,
}

impl Model for Id {
    ghost use Rattle.std.specs.Prelude.{ℕ};

    ghost Value = { ℕ };

    ghost view = { λ a. a.number };

    ghost inverse = { λ n. record { number = n } };
}

impl Id {
    /// Its number: terms are numbered from 0 in the order in which they came.
    pub fn number(&self) -> u64
        ensures { result ≡ self.now }
    {
        u64::from(self.number)
    }

    // The term of this number.
    pub(crate) fn of(number: u32) -> Id
        ensures { result ≡ number }
    {
        Id { number }
    }

    // Its number, as a place.
    pub(crate) fn place(self) -> usize
        ensures { result ≡ self }
    {
        self.number as usize
    }
}

/// What fills the places of a list of children that no child has taken.
impl Default for Id {
    ghost is_default = { λ id. id ≡ 0 };

    /// The first term.
    fn default() -> Id {
        Id { number: 0 }
    }
}
