//! What was made of terms, for as long as what stands for their variables stays.

ghost use Rattle.std.specs.Prelude.{◌≡◌, ◌<◌, ◌≤◌, Some, List, OnOk, length};
ghost use Rattle.qv_words.specs.Tree.{Tree};
ghost use Rattle.qv_store.specs.Nodes.{tree_at, trees_at};
ghost use Rattle.qv_prenex_splits.specs.Memos.{rank_of, IsWithin, AreWithin, AreKept};

use crate::split_store::SplitStore;
use qv_store::{Id, NoMemory, Node};
use std::alloc::{AllocError, Global};
use std::collections::HashMap;

// Levels from this one on count as one.
const MOST_LEVELS: usize = 4_096;

// What was made of a term, in whose place no change can come but at levels whose ranks are below
// its reach, and the time when it was made.
#[derive(Clone, Copy)]
struct Entry {
    made: Id,
    reach: usize,
    time: u64,
}

/// What was made of terms, of which each change of what stands for a level makes that forgotten
/// which may depend on the level. Where levels rise from outside to inside, as they do in scripts,
/// a quantifier that is entered or left makes nothing forgotten but what can't be met again.
#[derive(Drop)]
pub struct Memo {
    entries: HashMap<Id, Entry>,
    changes: Changes,
}

// When what stands for levels changed, by the number of changes until then.
#[derive(Drop)]
struct Changes {
    // For each reach the last change at a rank below it. Behind the list it is the last of all.
    last: Vec<u64>,
    count: u64,
}

impl Memo {
    ghost use Rattle.qv_prenex_splits.specs.Memos.{made_in, reach_in, IsNew, IsKeptNext};
    ghost use Rattle.qv_prenex_splits.specs.Memos.{IsForgotten};

    /// Nothing was made.
    pub fn new(alloc: Global) -> Memo
        ensures { IsNew result }
    {
        Memo {
            entries: HashMap::new(alloc),
            changes: Changes {
                last: Vec::new(alloc),
                count: 0,
            },
        }
    }

    // What was made of a term.
    pub(crate) fn get(&self, id: Id) -> Option<Id>
        ensures { result ≡ made_in self.now id }
    {
        match self.entries.get(&id) {
            Some(entry) => self.changes.made_still(entry),
            None => None,
        }
    }

    // Above the ranks of a term's variables.
    fn reach(&self, id: Id) -> usize
        ensures { result ≡ reach_in self.now id }
    {
        match self.entries.get(&id) {
            Some(entry) => entry.reach,
            None => MOST_LEVELS + 1,
        }
    }

    // Keeps what was made of a term whose variables have ranks below its reach.
    pub(crate) fn insert(&mut self, id: Id, made: Id, reach: usize) -> Result<(), NoMemory>
        ensures { OnOk result (IsKeptNext self.old self.new id made reach) }
    {
        let time = self.changes.count;
        self.entries.insert(id, Entry { made, reach, time })?;
        Ok(())
    }

    /// What stands for a level changes. Changes run out only where no memory would hold what was
    /// made between them.
    pub fn forget(&mut self, level: u64) -> Result<(), NoMemory>
        ensures { OnOk result (IsForgotten self.old self.new level) }
    {
        self.changes.change(level)
    }
}

impl Changes {
    ghost use Rattle.qv_prenex_splits.specs.Memos.{last_change, made_by, IsChanged};

    // The last change at a rank below this one.
    fn last_below(&self, reach: usize) -> u64
        ensures { result ≡ last_change self.now reach }
    {
        if reach < self.last.len() {
            self.last[reach]
        } else {
            self.count
        }
    }

    // What was made, if nothing changed for it since.
    fn made_still(&self, entry: &Entry) -> Option<Id>
        ensures { result ≡ made_by self.now (Some entry.now) }
    {
        if entry.time < self.last_below(entry.reach) {
            None
        } else {
            Some(entry.made)
        }
    }

    // What stands for a level changes.
    fn change(&mut self, level: u64) -> Result<(), NoMemory>
        ensures { OnOk result (IsChanged self.old self.new level) }
    {
        let next = self.count.checked_add(1).ok_or(AllocError)?;
        self.last.resize(rank_of(level) + 1, self.count)?;
        self.count = next;
        Ok(())
    }
}

// Levels by their order, the great ones as one.
fn rank_of(level: u64) -> usize
    ensures { result ≡ rank_of level }
{
    if level < MOST_LEVELS as u64 {
        level as usize
    } else {
        MOST_LEVELS
    }
}

// Above the ranks of a term's variables, where something was made of its arguments.
pub(crate) fn reach_of(store: &SplitStore, made: &Memo, id: Id) -> usize
    requires id { id < length store.now }
    requires kept { AreKept store.now made.now }
    ensures { IsWithin result (tree_at store.now id) }
{
    match store.node(id) {
        Node::Var { level, .. } => rank_of(*level) + 1,
        Node::App { kids, .. } => reach_of_all(made, kids.as_slice()),
        Node::Const { .. } | Node::Lit { .. } | Node::All { .. } | Node::Ex { .. } => 0,
    }
}

// Above the ranks of these terms' variables.
fn reach_of_all(made: &Memo, kids: &[Id]) -> usize
    ensures { (trees : List Tree) → AreKept trees made.now →
        AreWithin result (trees_at trees kids.now) }
{
    let mut reach = 0;
    'kids: for kid in kids {
        reach = greater(reach, made.reach(*kid));
    }
    reach
}

fn greater(a: usize, b: usize) -> usize
    ensures first { a ≤ result }
    ensures second { b ≤ result }
{
    if a < b { b } else { a }
}
