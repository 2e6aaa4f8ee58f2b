//! What is known of a region before candidates are tried for a place.

ghost use Rattle.std.specs.Prelude.{◌≡◌, ◌<◌, IfOk, length};
ghost use Rattle.qv_words.specs.Tree.{IsQuantifierFree};
ghost use Rattle.qv_store.specs.Nodes.{tree_at};
ghost use Rattle.qv_store.specs.Stores.{AreShared};
ghost use Rattle.qv_store.specs.Walks.{IsEarlier, IsFound};
ghost use Rattle.qv_choose_paths.specs.Looks.{look_of};

use crate::looking::{look, look_of};
use crate::ways::{Look, Place};
use qv_store::{Id, NoMemory, Store, Walk};
use qv_words::Word;
use std::alloc::Global;

/// The terms below a region, and of each what it shows of the place.
#[derive(Drop)]
pub struct Sight {
    pub place: Place,
    pub walk: Walk,
    pub looks: Vec<Look>,
}

impl Sight {
    ghost use Rattle.qv_choose_paths.specs.Sights.{IsScene, IsSight};

    pub fn of(alloc: Global, store: &Store, region: Id, place: Place) -> Result<Sight, NoMemory>
        requires region { region < length store.now }
        requires free { IsQuantifierFree (tree_at store.now region) }
        requires shared { AreShared store.now }
        ensures sight { IfOk result (IsSight store.now region) }
        ensures place { IfOk result (λ sight. sight.place ≡ place) }
    {
        let mut walk = Walk::new(alloc);
        walk.visit(store, region)?;
        let looks = look(alloc, store, &walk, place)?;
        Ok(Sight { place, walk, looks })
    }

    /// What a term shows.
    pub fn look(&self, store: &Store, id: Id) -> Look
        requires scene { IsScene store.now self.now }
        requires id { IsEarlier self.now.walk (length self.now.walk) id }
        ensures { result ≡ look_of self.now.place (tree_at store.now id) }
    {
        look_of(store, &self.walk, &self.looks, self.place, id)
    }
}

/// The same with the word of each term at a point.
#[derive(Drop)]
pub struct Trial {
    pub sight: Sight,
    pub words: Vec<Word>,
}

impl Trial {
    ghost use Rattle.qv_choose_paths.specs.Sights.{IsRegion, IsSight, AreSorted, IsTrial};

    pub fn of(store: &Store, region: Id, sight: Sight, point: &[Word]) -> Result<Trial, NoMemory>
        requires region { IsRegion point.now store.now region }
        requires sight { IsSight store.now region sight }
        requires level { sight.place.level < length point.now }
        ensures trial { IfOk result (IsTrial point.now store.now region) }
        ensures sight { IfOk result (λ trial. trial.sight ≡ sight) }
    {
        let words = store.eval_all(&sight.walk, &[], point)?;
        Ok(Trial { sight, words })
    }

    /// The word of a term.
    pub fn word(&self, store: &Store, id: Id) -> Word
        requires sorted { AreSorted store.now self.now.sight.walk self.now.words.items }
        requires id { IsEarlier self.now.sight.walk (length self.now.sight.walk) id }
        ensures { IsFound self.now.sight.walk self.now.words.items id result }
    {
        let _count = store.len();
        *self.sight.walk.result_of(&self.words, id)
    }
}
