//! Names that are bound one after another, and which binding of a name is the newest.

ghost use Rattle.std.specs.Prelude.{◌≡◌, ◌<◌, ◌∷◌, ◌-◌, [], Some, IsSome, OnOk, OnErr, length};
ghost use Rattle.std.specs.Prelude.{drop, nat_eq, slice_get};
ghost use Rattle.std.specs.HashMap.{get_by, UpdatesBy};
ghost use Rattle.std.specs.Cmp.Lexicographic.{pointwise};

use qv_sexpr::NoMemory;
use std::alloc::{AllocError, Global};
use std::collections::HashMap;
use std::hash::{BuildHasherDefault, DefaultHasher};
use std::marker::Model;

// Names come from scripts. Under the default hash many that meet in one place can be written down;
// under this one they have to be searched for, which is possible, as its key is fixed.
type Places = HashMap<Vec<u8>, usize, BuildHasherDefault<DefaultHasher>>;

// A name, and the place of its binding before this one.
#[derive(Drop)]
struct Bound {
    name: Vec<u8>,
    before: Option<usize>,
}

/// Names, each bound behind those before it, and found by its bytes in constant time. Their places
/// are numbered from 0, the oldest first.
#[derive(Drop)]
pub struct Names {
    // The place of each name's newest binding.
    newest: Places,
    bound: Vec<Bound>,
}

impl Model for Names {
    ghost use Rattle.std.specs.Prelude.{ℕ, List};
    ghost use Rattle.qv_elab_items.specs.Bindings.{names_of, AreKept};

    ghost Value = { List (List ℕ) };

    ghost view = { λ a. names_of a.bound.items };

    ghost invariant = { λ a. AreKept a.newest a.bound.items };
}

// The name of a binding that was taken away has the place that it had before it, or none.
fn put_back(newest: &mut Places, bound: &Bound)
    requires { IsSome (get_by (λ k. pointwise nat_eq bound.now.name.items k.items) newest.old) }
    ensures { UpdatesBy (λ x y. pointwise nat_eq x.items y.items)
        (λ k. pointwise nat_eq bound.now.name.items k.items) newest.old newest.new
        bound.now.before }
{
    let name = bound.name.as_slice();
    let Some(place) = bound.before else {
        let _ = newest.remove(name);
        return;
    };
    if let Some(kept) = newest.get_mut(name) {
        *kept = place;
    }
}

impl Names {
    ghost use Rattle.qv_elab_items.specs.Places.{place_in};

    /// No names.
    pub fn new(alloc: Global) -> Names
        ensures { result ≡ [] }
    {
        Names {
            newest: HashMap::with_hasher(alloc, BuildHasherDefault::new()),
            bound: Vec::new(alloc),
        }
    }

    /// How many bindings there are.
    pub fn len(&self) -> usize
        ensures { result ≡ length self.now }
    {
        self.bound.len()
    }

    /// The place of the newest binding of a name.
    pub fn find(&self, name: &[u8]) -> Option<usize>
        ensures { result ≡ place_in name.now self.now }
    {
        let place = self.newest.get(name)?;
        Some(*place)
    }

    /// The name of this place.
    pub fn name_at(&self, place: usize) -> &[u8]
        requires { place < length self.now }
        ensures { slice_get self.now (length self.now - 1 - place) ≡ Some result.now }
    {
        self.bound[place].name.as_slice()
    }

    /// Binds a name behind the others.
    pub fn push(&mut self, alloc: Global, name: &[u8]) -> Result<(), NoMemory>
        ensures ok { OnOk result (self.new ≡ name.now ∷ self.old) }
        ensures err { OnErr result (self.new ≡ self.old) }
    {
        let place = self.bound.len();
        let before = self.find(name);
        let key = Vec::from_slice(alloc, name)?;
        let own = Vec::from_slice(alloc, name)?;
        self.bound.reserve(1)?;
        if self.newest.insert(key, place).is_err() {
            return Err(AllocError);
        }
        self.bound.push_reserved(Bound { name: own, before });
        Ok(())
    }

    // Takes the newest binding away.
    fn pop(&mut self)
        ensures { self.new ≡ drop 1 self.old }
    {
        if let Some(bound) = self.bound.pop() {
            put_back(&mut self.newest, &bound);
        }
    }

    /// Takes the newest bindings away, so that this many are left.
    pub fn truncate(&mut self, left: usize)
        ensures { self.new ≡ drop (length self.old - left) self.old }
    {
        'names: while self.len() > left {
            self.pop();
        }
    }
}
