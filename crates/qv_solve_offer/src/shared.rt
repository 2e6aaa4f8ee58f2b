//! What is kept from one check to the next.

ghost use Rattle.std.specs.Prelude.{◌<◌, All, List, OnOk, length};
ghost use Rattle.std.specs.Bool.{OnFalse};
ghost use Rattle.qv_words.specs.Tree.{Tree, IsQuantifierFree};
ghost use Rattle.qv_store.specs.Nodes.{tree_at};
ghost use Rattle.qv_store.specs.Stores.{AreShared};
ghost use Rattle.qv_solve_offer.specs.Asking.{IsBase};
ghost use Rattle.qv_solve_offer.specs.Sharing.{IsShared};

use crate::base::Base;
use crate::constants::words_in;
use crate::standing::standing;
use qv_blast::BlastFault;
use qv_cnf::Lit;
use qv_store::{Id, NoMemory, Store};
use qv_words::Word;
use std::alloc::Global;

// How many conflicts a search may take.
const MOST_CONFLICTS: u64 = 2_000;

// Checks of fewer formulas are small, and are quicker alone.
const FEW_FORMULAS: usize = 4;

/// Formulas of the checks of one script, each with its clauses once, and a core that has them all,
/// in which a check assumes its own. What it gives may be wrong, and is to be looked at.
#[derive(Drop)]
pub struct Shared {
    alloc: Global,
    // Whether there was a check.
    begun: bool,
    // One at most.
    bases: Vec<Base>,
    // The words that were found last.
    last: Vec<Option<Word>>,
}

impl Shared {
    /// No check yet.
    pub fn new(alloc: Global) -> Shared
        ensures { (trees : List Tree) → IsShared trees result }
    {
        Shared {
            alloc,
            begun: false,
            bases: Vec::new(alloc),
            last: Vec::new(alloc),
        }
    }

    /// Words for the constants of formulas, by index, which may make all of them true: the last ones
    /// that were found, where these do, and otherwise what a search finds. There are none at the
    /// first check, where there are few formulas, where one has a quantifier, and where no words are
    /// found within a budget and variables of its own, which are charged to no record. Nothing is
    /// claimed of the words.
    pub fn words(&mut self, store: &Store, formulas: &[Id]) -> Vec<Option<Word>>
        requires ids { All (λ id. id < length store.now) formulas.now }
        requires shared { IsShared store.now self.old }
        ensures shared { IsShared store.now self.new }
    {
        // What a store keeps.
        let _count = store.len();
        if !self.begun || is_small(formulas) || has_quantifier(store, formulas) {
            self.begun = true;
            return Vec::new(self.alloc);
        }
        match self.offered(store, formulas) {
            Ok(words) => words,
            Err(_) => {
                self.bases.clear();
                self.last.clear();
                Vec::new(self.alloc)
            }
        }
    }

    // The last words where all formulas are true under them, and otherwise those that are found.
    fn offered(&mut self, store: &Store, formulas: &[Id]) -> Result<Vec<Option<Word>>, BlastFault>
        requires trees { AreShared store.now }
        requires ids { All (λ id. id < length store.now) formulas.now }
        requires free { All (λ id. IsQuantifierFree (tree_at store.now id)) formulas.now }
        requires shared { IsShared store.now self.old }
        ensures shared { OnOk result (IsShared store.now self.new) }
    {
        if let Some(words) = standing(self.alloc, store, formulas, &self.last)? {
            return Ok(words);
        }
        let words = self.found(store, formulas)?;
        if !words.is_empty() {
            self.last = copied(self.alloc, &words)?;
        }
        Ok(words)
    }

    // The words that a search finds.
    fn found(&mut self, store: &Store, formulas: &[Id]) -> Result<Vec<Option<Word>>, BlastFault>
        requires trees { AreShared store.now }
        requires ids { All (λ id. id < length store.now) formulas.now }
        requires free { All (λ id. IsQuantifierFree (tree_at store.now id)) formulas.now }
        requires shared { IsShared store.now self.old }
        ensures shared { OnOk result (IsShared store.now self.new) }
    {
        self.begin()?;
        match self.bases.last_mut() {
            Some(base) => words_of(self.alloc, store, formulas, base),
            None => Ok(Vec::new(self.alloc)),
        }
    }

    // There is a base, which isn't outgrown.
    fn begin(&mut self) -> Result<(), NoMemory>
        ensures shared { (trees : List Tree) → AreShared trees → IsShared trees self.old →
            OnOk result (IsShared trees self.new) }
    {
        if is_outgrown(&self.bases) {
            self.bases.clear();
        }
        if self.bases.is_empty() {
            let base = Base::new(self.alloc)?;
            self.bases.push(base)?;
        }
        Ok(())
    }
}

// The same words once more.
fn copied(alloc: Global, words: &[Option<Word>]) -> Result<Vec<Option<Word>>, NoMemory> {
    let mut copied = Vec::with_capacity(alloc, words.len())?;
    copied.extend_from_slice(words)?;
    Ok(copied)
}

// Whether a base has become large beside what it began with.
fn is_outgrown(bases: &[Base]) -> bool {
    match bases.last() {
        Some(base) => base.is_outgrown(),
        None => false,
    }
}

// Whether a check of these is quicker alone.
fn is_small(formulas: &[Id]) -> bool {
    formulas.len() < FEW_FORMULAS
}

// Whether some formula has a quantifier.
fn has_quantifier(store: &Store, formulas: &[Id]) -> bool
    requires ids { All (λ id. id < length store.now) formulas.now }
    ensures free { OnFalse result (All (λ id. IsQuantifierFree (tree_at store.now id))
        formulas.now) }
{
    'formulas: for formula in formulas {
        if store.quantified(*formula) {
            return true;
        }
    }
    false
}

// The words of the constants where the formulas are assumed.
fn words_of(
    alloc: Global,
    store: &Store,
    formulas: &[Id],
    base: &mut Base,
) -> Result<Vec<Option<Word>>, BlastFault>
    requires ids { All (λ id. id < length store.now) formulas.now }
    requires free { All (λ id. IsQuantifierFree (tree_at store.now id)) formulas.now }
    requires base { IsBase store.now base.old }
    ensures base { OnOk result (IsBase store.now base.new) }
{
    let mut assumptions = Vec::with_capacity(alloc, formulas.len())?;
    assume(&mut assumptions, store, formulas, base)?;
    base.note();
    match base.model(&assumptions, MOST_CONFLICTS)? {
        Some(model) => Ok(words_in(alloc, store, formulas, base, &model)?),
        None => Ok(Vec::new(alloc)),
    }
}

// The literals of the formulas.
fn assume(
    lits: &mut Vec<Lit>,
    store: &Store,
    formulas: &[Id],
    base: &mut Base,
) -> Result<(), BlastFault>
    requires ids { All (λ id. id < length store.now) formulas.now }
    requires free { All (λ id. IsQuantifierFree (tree_at store.now id)) formulas.now }
    requires base { IsBase store.now base.old }
    ensures base { OnOk result (IsBase store.now base.new) }
{
    'formulas: for formula in formulas {
        if let Some(lit) = base.lit(store, *formula)? {
            lits.push(lit)?;
        }
    }
    Ok(())
}
