//! A name behind one more byte, as a key.

ghost use Rattle.std.specs.Prelude.{◌≡◌, nat_eq};
ghost use Rattle.std.proofs.Common.{ap};
ghost use Rattle.std.specs.Cmp.{on_equiv, on_per, partial_equiv_from_equiv};
ghost use Rattle.std.specs.Cmp.Lexicographic.{bytes_decides, nat_list_eq_equiv, pointwise};
ghost use Rattle.std.specs.Hash as fed;
ghost use Rattle.qv_elab_items.specs.Prefixes.{bytes_of};

use indexmap::Equivalent;
use std::hash::{Hash, Hasher};

// A name behind one more byte. It stands for the bytes of both, which are copied nowhere.
#[derive(Clone, Copy)]
pub(crate) struct Prefixed<'a> {
    pub(crate) first: u8,
    pub(crate) name: &'a [u8],
}

impl<'a> PartialEq for Prefixed<'a> {
    ghost eq = { λ x y. pointwise nat_eq (bytes_of x) (bytes_of y) };

    ghost laws = { on_per bytes_of (partial_equiv_from_equiv nat_list_eq_equiv) };

    fn eq(&self, other: &Self) -> bool {
        self.first == other.first && self.name == other.name
    }
}

impl<'a> Eq for Prefixed<'a> {
    ghost laws = { on_equiv bytes_of nat_list_eq_equiv };
}

impl<'a> Hash for Prefixed<'a> {
    ghost hash_input = { λ x. fed.slice fed.u8 (bytes_of x) };

    ghost respects_eq = { λ x y h.
        ap (fed.slice fed.u8) ((bytes_decides (bytes_of x) (bytes_of y)).0 h) };

    fn hash<H: Hasher>(&self, state: &mut H) {
        state.write_usize(self.name.len() + 1);
        state.write_u8(self.first);
        Hash::hash_slice(self.name, state);
    }
}

impl<'a> Equivalent<Vec<u8>> for Prefixed<'a> {
    ghost equivalent = { λ x key. pointwise nat_eq (bytes_of x) key.items };

    ghost respects_hash = { λ x key h.
        ap (fed.slice fed.u8) ((bytes_decides (bytes_of x) key.items).0 h) };

    ghost respects_eq = { λ x a b. nat_list_eq_equiv.congr (bytes_of x) a.items b.items };

    fn equivalent(&self, key: &Vec<u8>) -> bool {
        match key.as_slice() {
            [first, rest @ ..] => *first == self.first && self.name == rest,
            [] => false,
        }
    }
}
