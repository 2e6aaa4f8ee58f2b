//! Tables of names of which no two are the same.

ghost use Rattle.std.specs.Prelude.{◌≡◌, ◌∷◌, ◌-◌, [], None, OnOk, OnErr, length, drop};

use crate::prefixed::Prefixed;
use indexmap::IndexSet;
use qv_sexpr::NoMemory;
use std::alloc::{AllocError, Global};
use std::hash::{BuildHasherDefault, DefaultHasher};
use std::marker::Model;

// Under this hash, as of other names, those that meet in one place have to be searched for.
type Own = IndexSet<Vec<u8>, BuildHasherDefault<DefaultHasher>>;

/// Names of which no two are the same, each added behind those before it and kept once, and found by
/// its bytes in constant time. Their places are numbered from 0, the oldest first.
#[derive(Drop)]
pub struct NameTable {
    names: Own,
}

impl Model for NameTable {
    ghost use Rattle.std.specs.Prelude.{ℕ, List};
    ghost use Rattle.qv_elab_items.specs.Tables.{names_in, HaveNoTwins};

    ghost Value = { List (List ℕ) };

    ghost view = { λ a. names_in a.names.keys };

    ghost invariant = { λ a. HaveNoTwins (names_in a.names.keys) };
}

impl NameTable {
    ghost use Rattle.qv_elab_items.specs.Places.{place_in};

    /// No names.
    pub fn new(alloc: Global) -> NameTable
        ensures { result ≡ [] }
    {
        NameTable {
            names: IndexSet::with_hasher(alloc, BuildHasherDefault::new()),
        }
    }

    /// How many names there are.
    pub fn len(&self) -> usize
        ensures { result ≡ length self.now }
    {
        self.names.len()
    }

    /// The place of a name.
    pub fn find(&self, name: &[u8]) -> Option<usize>
        ensures { result ≡ place_in name.now self.now }
    {
        self.names.get_index_of(name)
    }

    /// The place of a name behind one more byte.
    pub fn find_behind(&self, first: u8, name: &[u8]) -> Option<usize>
        ensures { result ≡ place_in (first ∷ name.now) self.now }
    {
        self.names.get_index_of(Prefixed { first, name })
    }

    /// Adds a name that isn't there, behind the others.
    pub fn push(&mut self, alloc: Global, name: &[u8]) -> Result<(), NoMemory>
        requires { place_in name.now self.old ≡ None }
        ensures ok { OnOk result (self.new ≡ name.now ∷ self.old) }
        ensures err { OnErr result (self.new ≡ self.old) }
    {
        let own = Vec::from_slice(alloc, name)?;
        if self.names.insert(own).is_err() {
            return Err(AllocError);
        }
        Ok(())
    }

    /// Takes the newest names away, so that this many are left.
    pub fn truncate(&mut self, left: usize)
        ensures { self.new ≡ drop (length self.old - left) self.old }
    {
        self.names.truncate(left);
    }
}
