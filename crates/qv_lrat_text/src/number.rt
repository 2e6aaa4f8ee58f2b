//! The numbers of a line: ids, literals and hints.

ghost use Rattle.std.specs.Prelude.{◌≡◌, ◌++◌, List, ℕ, Option, OnOk, decimal, ⊤};
ghost use Rattle.std.specs.Fmt.{signed_decimal};
ghost use Rattle.qv_cnf.specs.Literal.{IsLiteral, number_of};
ghost use Rattle.qv_lrat_text.specs.Grammar.{id_of, hint_of, literal_in};
ghost use Rattle.qv_lrat_text.specs.Words.{Keeps, spaced};

use crate::decimal::{push_number, read_i64, read_number};
use qv_cnf::Lit;
use std::alloc::AllocError;

// The greatest id.
const GREATEST_ID: u128 = (1 << 62) - 1;

/// A number of a line, as a word writes it.
pub trait Number: Drop {
    /// What a word stands for.
    ghost meaning: { List ℕ → Option Self };

    /// The word that is printed.
    ghost text: { Self → List ℕ };

    /// What each number of the type meets.
    ghost is_number: { Self → Type 0 };

    /// The number that the word stands for.
    fn read(word: &[u8]) -> Option<Self>
        ensures { result ≡ meaning word.now };

    /// Adds its word and a space.
    fn push(&self, out: &mut Vec<u8>) -> Result<(), AllocError>
        ensures ok { OnOk result (out.new.items ≡ out.old.items ++ spaced (text self.now)) }
        ensures number { OnOk result (is_number self.now) }
        ensures kept { Keeps out.old.items out.new.items };
}

/// An id.
impl Number for u64 {
    ghost meaning = { id_of };

    ghost text = { decimal };

    ghost is_number = { λ _. ⊤ };

    #[inline]
    fn read(word: &[u8]) -> Option<u64> {
        let id = read_number(word, 1, GREATEST_ID)?;
        Some(id as u64)
    }

    fn push(&self, out: &mut Vec<u8>) -> Result<(), AllocError> {
        push_number(*self, out)
    }
}

/// A hint.
impl Number for i64 {
    ghost meaning = { hint_of };

    ghost text = { signed_decimal };

    ghost is_number = { λ _. ⊤ };

    #[inline]
    fn read(word: &[u8]) -> Option<i64> {
        read_i64(word, GREATEST_ID)
    }

    fn push(&self, out: &mut Vec<u8>) -> Result<(), AllocError> {
        push_number(*self, out)
    }
}

impl Number for Lit {
    ghost meaning = { literal_in };

    ghost text = { λ lit. signed_decimal (number_of lit) };

    ghost is_number = { IsLiteral };

    #[tactic(auto, unfolding(crate::specs::Grammar::literal_in))]
    #[inline]
    fn read(word: &[u8]) -> Option<Lit> {
        let number = read_i64(word, u128::from(Lit::MAX_VARIABLE))?;
        Lit::new(number as i32)
    }

    fn push(&self, out: &mut Vec<u8>) -> Result<(), AllocError> {
        push_number(self.number(), out)
    }
}
