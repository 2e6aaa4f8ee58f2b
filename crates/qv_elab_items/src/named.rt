//! Names with the terms that they stand for.

ghost use Rattle.std.specs.Prelude.{◌≡◌, ◌<◌, ◌≤◌, ◌∷◌, ◌++◌, ◌-◌, [], Some, OnOk, OnErr, length};
ghost use Rattle.std.specs.Prelude.{take, drop, is_some, slice_get};
ghost use Rattle.qv_elab_defs.specs.Scopes.{found};

use crate::names::Names;
use qv_store::{Id, NoMemory};
use std::alloc::Global;
use std::marker::Model;

/// Names that are bound one after another, each with its term. Their places are numbered from 0,
/// the oldest first.
#[derive(Drop)]
pub struct NamedIds {
    names: Names,
    // Of each name, at its place.
    ids: Vec<Id>,
}

impl Model for NamedIds {
    ghost use Rattle.std.specs.Prelude.{ℕ};
    ghost use Rattle.qv_elab_defs.specs.Scopes.{Named};
    ghost use Rattle.qv_elab_items.specs.Bindings.{named_of, HaveIds};

    ghost Value = { Named ℕ };

    ghost view = { λ a. named_of a.names a.ids.items };

    ghost invariant = { λ a. HaveIds a.names a.ids.items };
}

impl NamedIds {
    /// No name is bound.
    pub fn new(alloc: Global) -> NamedIds
        ensures { result ≡ [] }
    {
        NamedIds {
            names: Names::new(alloc),
            ids: Vec::new(alloc),
        }
    }

    /// How many bindings there are.
    pub fn len(&self) -> usize
        ensures { result ≡ length self.now }
    {
        self.names.len()
    }

    /// What a name stands for.
    pub fn find(&self, name: &[u8]) -> Option<Id>
        ensures { result ≡ found name.now self.now }
    {
        match self.names.find(name) {
            Some(place) => Some(self.ids[place]),
            None => None,
        }
    }

    /// Whether a name is bound at this place or behind it.
    pub fn has_from(&self, name: &[u8], from: usize) -> bool
        ensures { result
            ≡ is_some (found name.now (take (length self.now - from) self.now)) }
    {
        match self.names.find(name) {
            Some(place) => from <= place,
            None => false,
        }
    }

    /// The binding of this place.
    pub fn at(&self, place: usize) -> (&[u8], Id)
        requires { place < length self.now }
        ensures { slice_get self.now (length self.now - 1 - place)
            ≡ Some (result.0.now, result.1) }
    {
        (self.names.name_at(place), self.ids[place])
    }

    /// Binds a name behind the others.
    pub fn push(&mut self, alloc: Global, name: &[u8], id: Id) -> Result<(), NoMemory>
        ensures ok { OnOk result (self.new ≡ (name.now, id) ∷ self.old) }
        ensures err { OnErr result (self.new ≡ self.old) }
    {
        self.ids.reserve(1)?;
        self.names.push(alloc, name)?;
        self.ids.push_reserved(id);
        Ok(())
    }

    /// Takes the newest bindings away, so that this many are left.
    pub fn truncate(&mut self, left: usize)
        ensures { self.new ≡ drop (length self.old - left) self.old }
    {
        self.names.truncate(left);
        self.ids.truncate(left);
    }

    /// Binds what others have from this place on behind these, in their order.
    pub fn push_from(
        &mut self,
        alloc: Global,
        others: &NamedIds,
        from: usize,
    ) -> Result<(), NoMemory>
        ensures { OnOk result
            (self.new ≡ take (length others.now - from) others.now ++ self.old) }
    {
        'bindings: for place in from..others.len() {
            let (name, id) = others.at(place);
            self.push(alloc, name, id)?;
        }
        Ok(())
    }
}
