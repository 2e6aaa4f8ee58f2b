//! The watches of clauses.

ghost use Rattle.std.specs.Prelude.{◌≡◌, ◌≢◌, ◌⊎◌, ℕ, ◌<◌, ◌≤◌, [], ◌∷◌, ◌++◌, true, false, length};
ghost use Rattle.std.specs.Prelude.{map, slice_get, slice_index_or, slice_set, OnOk, OnErr};
ghost use Rattle.std.specs.Prelude.{vec_len, vec_capacity};
ghost use Rattle.std.specs.Option.{MatchOption};
ghost use Rattle.qv_cnf.specs.Literal.{index_of};
ghost use Rattle.qv_watch.specs.Watching.{lists_in, CountAtMost, Frames, Grows, HasBeside};
ghost use Rattle.qv_watch.specs.Watching.{HasNoneBeside, IsExchanged, IsListedNow, IsPutIn};
ghost use Rattle.qv_watch.specs.Watching.{IsShifted, IsShort, IsTakenOut, IsWatchedNow, StaysBut};
ghost use Rattle.qv_watch.specs.Watching.{AreReleased, Releases};

use qv_cnf::Lit;
use std::alloc::{AllocError, Global};
use std::mem;

// Where a clause is found from a literal that it watches: its place, and a literal of it that is
// looked at first.
#[derive(Clone, Copy, Debug, PartialEq, Eq)]
pub(crate) struct Watch {
    pub(crate) place: u32,
    pub(crate) other: Lit,
}

// The two literals that a clause watches, and two more of its literals, which are looked at before
// all of it is.
#[derive(Clone, Copy, Debug, PartialEq, Eq)]
pub(crate) struct Pair {
    pub(crate) first: Lit,
    pub(crate) second: Lit,
    pub(crate) third: Lit,
    pub(crate) fourth: Lit,
}

// The clauses that watch a literal, and some that did.
#[derive(Drop)]
pub(crate) struct WatchList {
    pub(crate) watches: Vec<Watch>,
}

// The clauses that each literal is watched by, at the literals' places; the two literals that each
// clause watches, at the clauses' places; the places of the clauses that watch none yet; and how
// many of the true literals were followed. A list has memory for each clause with its literal
// and each watch of one that went, so that `lost` is false: where it is true, the watches mean
// nothing.
#[derive(Drop)]
pub(crate) struct Watches {
    alloc: Global,
    pub(crate) lists: Vec<WatchList>,
    counts: Vec<usize>,
    pub(crate) pairs: Vec<Pair>,
    pub(crate) queue: Vec<usize>,
    pub(crate) head: usize,
    pub(crate) lost: bool,
}

impl Watches {
    pub(crate) fn new(alloc: Global) -> Self
        ensures queue { result.queue.items ≡ [] }
        ensures head { result.head ≡ 0 }
    {
        Watches {
            alloc,
            lists: Vec::new(alloc),
            counts: Vec::new(alloc),
            pairs: Vec::new(alloc),
            queue: Vec::new(alloc),
            head: 0,
            lost: false,
        }
    }

    // Makes room for the literals of the variables up to this one.
    pub(crate) fn room(&mut self, variables: u32) -> Result<(), AllocError>
        ensures { Grows self.old self.new }
    {
        let places = 2 * variables as usize + 2;
        if self.counts.len() < places {
            self.counts.resize(places, 0)?;
        }
        for _ in self.lists.len()..places {
            self.lists.push(WatchList {
                watches: Vec::new(self.alloc),
            })?;
        }
        Ok(())
    }

    // Takes the memory for one more clause with these literals.
    pub(crate) fn reserve(&mut self, lits: &[Lit]) -> Result<(), AllocError>
        ensures grows { Grows self.old self.new }
        ensures counts { CountAtMost (length lits.now) self.old.counts.items self.new.counts.items }
        ensures queue { OnOk result (vec_len self.new.queue < vec_capacity self.new.queue) }
        ensures pairs { OnOk result (vec_len self.new.pairs < vec_capacity self.new.pairs) }
    {
        for lit in lits {
            reserve_one(&mut self.lists, &mut self.counts, *lit)?;
        }
        self.queue.reserve(1)?;
        self.pairs.reserve(1)?;
        Ok(())
    }

    // The clause at a place is to go. Its watches stay in their lists until they are met, and move to
    // no others; its other literals need no more memory.
    pub(crate) fn release(&mut self, place: usize, lits: &[Lit])
        ensures { Releases self.old self.new }
    {
        if let Some(pair) = give_way(&mut self.pairs, place) {
            uncount(&mut self.counts, lits, pair);
        }
    }

    // A clause came to that place.
    pub(crate) fn put(&mut self, place: usize)
        requires queue { vec_len self.old.queue < vec_capacity self.old.queue }
        requires pairs { vec_len self.old.pairs < vec_capacity self.old.pairs }
        ensures { IsPutIn place self.old self.new }
    {
        let none = Pair {
            first: Lit::default(),
            second: Lit::default(),
            third: Lit::default(),
            fourth: Lit::default(),
        };
        self.pairs.push_reserved(none);
        self.queue.push_reserved(place);
    }

    // The list at that place goes out, and leaves none behind.
    pub(crate) fn take(&mut self, at: usize) -> Vec<Watch>
        requires { at < vec_len self.old.lists }
        ensures { IsTakenOut at result.items self.old self.new }
    {
        mem::replace(&mut self.lists[at].watches, Vec::new(self.alloc))
    }

    // The literal that the clause at a place watches beside this one.
    pub(crate) fn beside(&self, place: usize, lit: Lit) -> Option<Lit>
        ensures { MatchOption result (HasNoneBeside self.now.pairs.items place lit)
            (HasBeside self.now.pairs.items place lit) }
    {
        let pair = self.pairs.get(place)?;
        if pair.first == lit {
            Some(pair.second)
        } else if pair.second == lit {
            Some(pair.first)
        } else {
            None
        }
    }

    // The clause at a place watches two literals from now on. The answer is false where there was
    // no memory for it.
    pub(crate) fn watch(&mut self, place: usize, pair: Pair) -> bool
        ensures { result ≡ true → IsWatchedNow place pair self.old self.new }
    {
        let Ok(place) = u32::try_from(place) else {
            return false;
        };
        let first = Watch {
            place,
            other: pair.second,
        };
        if !list_now(&mut self.lists, pair.first, first) {
            return false;
        }
        let second = Watch {
            place,
            other: pair.first,
        };
        if !list_now(&mut self.lists, pair.second, second) {
            return false;
        }
        set_pair(&mut self.pairs, place, pair)
    }

    // The clause at a place watches these two literals from now on, of which it watched the first,
    // and not the one that it watched beside that. The answer is false where there was no memory
    // for it.
    pub(crate) fn shift(&mut self, place: u32, out: Lit, first: Lit, second: Lit) -> bool
        ensures frames { Frames self.old self.new }
        ensures shifted { result ≡ true → IsShifted place out first second self.old self.new }
    {
        let watch = Watch {
            place,
            other: first,
        };
        if !list_now(&mut self.lists, second, watch) {
            return false;
        }
        exchange(&mut self.pairs, place, out, first, second)
    }
}

// Puts a watch into a literal's list, where there is memory for it.
fn list_now(lists: &mut [WatchList], lit: Lit, watch: Watch) -> bool
    ensures { result ≡ true → IsListedNow (lists_in lists.old) (lists_in lists.new) lit watch }
{
    let at = lit.index();
    if at >= lists.len() {
        return false;
    }
    let list = &mut lists[at].watches;
    if list.len() >= list.capacity() {
        return false;
    }
    list.push_reserved(watch);
    true
}

fn set_pair(pairs: &mut [Pair], place: u32, pair: Pair) -> bool
    ensures { result ≡ true → (place < length pairs.old) ×
        (pairs.new ≡ slice_set pairs.old place pair) }
{
    let at = place as usize;
    if at >= pairs.len() {
        return false;
    }
    pairs[at] = pair;
    true
}

// The clause at a place watches these two literals from now on, and has one that it watched among
// the others.
fn exchange(pairs: &mut [Pair], place: u32, out: Lit, first: Lit, second: Lit) -> bool
    ensures { result ≡ true → IsExchanged place out first second pairs.old pairs.new }
{
    let at = place as usize;
    if at >= pairs.len() {
        return false;
    }
    let fourth = left_over(pairs[at], second);
    pairs[at] = Pair {
        first,
        second,
        third: out,
        fourth,
    };
    true
}

// One of the two others, not this one where they differ.
fn left_over(pair: Pair, taken: Lit) -> Lit
    ensures { (result ≡ pair.third) ⊎ (result ≡ pair.fourth) }
{
    if pair.third == taken {
        pair.fourth
    } else {
        pair.third
    }
}

// Makes room for one more clause in the literal's list. That fails only where the list has none for
// as many as were counted, so no more is asked than the clauses need.
fn reserve_one(lists: &mut [WatchList], counts: &mut [usize], lit: Lit) -> Result<(), AllocError>
    ensures stays { StaysBut lists.old lists.new }
    ensures counts { CountAtMost 1 counts.old counts.new }
    ensures err { OnErr result (IsShort lists.old counts.new (index_of lit)) }
{
    let at = lit.index();
    if at >= lists.len() {
        return Ok(());
    }
    let count = count_one(counts, at);
    let list = &mut lists[at].watches;
    if list.len() < count {
        list.reserve(count - list.len())?;
    }
    Ok(())
}

// The two that stand with the watches at a place give way to these. The answer is what was there.
fn give_way(pairs: &mut [Pair], place: usize) -> Option<Pair>
    ensures { AreReleased pairs.old pairs.new }
{
    if place >= pairs.len() {
        return None;
    }
    let pair = pairs[place];
    pairs[place] = Pair {
        first: pair.first,
        second: pair.second,
        third: pair.first,
        fourth: pair.second,
    };
    Some(pair)
}

// Counts one clause less at the places of the literals, but for the two watches.
fn uncount(counts: &mut [usize], lits: &[Lit], pair: Pair) {
    for lit in lits {
        let at = lit.index();
        if at < counts.len() && *lit != pair.first && *lit != pair.second {
            counts[at] = counts[at].saturating_sub(1);
        }
    }
}

// Counts one more clause at a place, and answers how many there are.
fn count_one(counts: &mut [usize], at: usize) -> usize
    ensures counts { CountAtMost 1 counts.old counts.new }
    ensures count { result ≡ slice_index_or counts.new at 0 }
{
    if at >= counts.len() {
        return 0;
    }
    let count = counts[at].saturating_add(1);
    counts[at] = count;
    count
}
