//! The learnt clauses, and which of them are of least use.

use crate::levels::Levels;
use crate::places::Places;
use qv_cnf::Lit;
use qv_watch::Trail;
use std::alloc::{AllocError, Global};

// A clause of no more literals is never deleted.
const SHORT: usize = 2;

// Nor is one of no greater LBD.
const GLUE: u32 = 2;

// One of no greater LBD stays for two reductions after it was last used, and others for one.
const CLOSE: u32 = 6;

// How many conflicts there are before the first reduction, and how many more each time.
const FIRST_INTERVAL: u64 = 500;

const MORE: u64 = 100;

// Of 100 clauses that may go, so many go.
const SHARE: usize = 75;

// What is known of a learnt clause. No contract speaks of it.
#[derive(Clone, Copy)]
struct Known {
    id: u64,
    lbd: u32,
    // At how many reductions it still stays because it was used.
    used: u32,
    len: usize,
    // It stays at this reduction, or goes.
    is_reason: bool,
    goes: bool,
}

// The learnt clauses that are live and not short, and when some of them are deleted.
#[derive(Drop)]
pub(crate) struct Database {
    alloc: Global,
    levels: Levels,
    // The oldest first.
    known: Vec<Known>,
    places: Places,
    // After how many conflicts there is a reduction, how many there were, and how many of them came
    // above level 0.
    next: u64,
    reductions: u64,
    pub(crate) above_zero: u64,
}

impl Database {
    pub(crate) fn new(alloc: Global) -> Database {
        Database {
            alloc,
            levels: Levels::new(alloc),
            known: Vec::new(alloc),
            places: Places::new(alloc),
            next: FIRST_INTERVAL,
            reductions: 0,
            above_zero: 0,
        }
    }

    // Notes a clause that is learnt under this id, and that those of the hints were used for it.
    // The answer is its LBD. Where the id wasn't taken in the end, it may come again.
    pub(crate) fn note(
        &mut self,
        trail: &Trail,
        id: u64,
        lits: &[Lit],
        hints: &[u64],
    ) -> Result<u32, AllocError> {
        self.levels.room(trail.level())?;
        for hint in hints {
            self.touch(trail, *hint);
        }
        let lbd = self.levels.lbd(trail, lits, u32::MAX);
        let place = self.place(id);
        self.known.truncate(place);
        if lits.len() > SHORT {
            self.places.set(id, place)?;
            self.known.push(fresh(id, lbd, lits.len()))?;
        }
        Ok(lbd)
    }

    // The clause of this id was used. Its LBD is counted again.
    fn touch(&mut self, trail: &Trail, id: u64) {
        let place = self.find(id);
        if place >= self.known.len() || self.known[place].id != id {
            return;
        }
        let known = self.known[place].lbd;
        if known > GLUE {
            let lbd = lbd_of(&mut self.levels, trail, id, known);
            self.known[place].lbd = lbd;
            self.known[place].used = stays(lbd);
        }
    }

    // Where the clause of this id stands, if it does.
    fn find(&self, id: u64) -> usize {
        match self.places.get(id) {
            Some(place) => place,
            None => self.place(id),
        }
    }

    // How many of the clauses have a smaller id.
    fn place(&self, id: u64) -> usize {
        match self.known.first() {
            Some(first) if first.id < id => self.known.partition_point(|one| one.id < id),
            _ => 0,
        }
    }

    pub(crate) fn is_due(&self, conflicts: u64) -> bool {
        conflicts >= self.next
    }

    // The ids of the clauses that go, the oldest first, after so many conflicts.
    pub(crate) fn reduced(
        &mut self,
        trail: &Trail,
        conflicts: u64,
    ) -> Result<Vec<u64>, AllocError> {
        self.mark_reasons(trail);
        let mut free = self.unused()?;
        free.sort_unstable();
        free.truncate(free.len() / 100 * SHARE + free.len() % 100 * SHARE / 100);
        let mut ids = Vec::with_capacity(self.alloc, free.len())?;
        self.drop_all(&free, &mut ids)?;
        self.renumber()?;
        self.count(trail.level() > 0);
        let interval = FIRST_INTERVAL.saturating_add(self.reductions.saturating_mul(MORE));
        self.next = conflicts.saturating_add(interval);
        Ok(ids)
    }

    // Counts a reduction.
    fn count(&mut self, is_above_zero: bool) {
        self.reductions = self.reductions.saturating_add(1);
        if is_above_zero {
            self.above_zero = self.above_zero.saturating_add(1);
        }
    }

    // The reasons stay at this reduction.
    fn mark_reasons(&mut self, trail: &Trail) {
        for lit in trail.order() {
            if let Some(id) = trail.reason(*lit) {
                let place = self.find(id);
                if place < self.known.len() && self.known[place].id == id {
                    self.known[place].is_reason = true;
                }
            }
        }
    }

    // The clauses that weren't used of late, each with its place: that of the greatest LBD is the
    // least, among equals the longest, and then the oldest.
    fn unused(&mut self) -> Result<Vec<(u32, usize, usize)>, AllocError> {
        let mut free = Vec::new(self.alloc);
        for (place, one) in self.known.iter_mut().enumerate() {
            if may_go(one) {
                let lbd = u32::MAX.saturating_sub(one.lbd);
                let len = usize::MAX.saturating_sub(one.len);
                free.push((lbd, len, place))?;
            }
        }
        Ok(free)
    }

    // Drops the clauses of these places, and adds their ids.
    fn drop_all(
        &mut self,
        free: &[(u32, usize, usize)],
        ids: &mut Vec<u64>,
    ) -> Result<(), AllocError> {
        for (_, _, place) in free {
            if *place < self.known.len() {
                self.known[*place].goes = true;
            }
        }
        for one in &self.known {
            if one.goes {
                ids.push(one.id)?;
            }
        }
        self.known.retain(|one| !one.goes);
        Ok(())
    }

    // Sets the places of all that are left.
    fn renumber(&mut self) -> Result<(), AllocError> {
        for (place, one) in self.known.iter().enumerate() {
            self.places.set(one.id, place)?;
        }
        Ok(())
    }
}

// The LBD of the clause of an id, or what was known of it where that is less or there is none.
fn lbd_of(levels: &mut Levels, trail: &Trail, id: u64, known: u32) -> u32 {
    match trail.clause(id) {
        Some(lits) => levels.lbd(trail, lits, known),
        None => known,
    }
}

fn fresh(id: u64, lbd: u32, len: usize) -> Known {
    Known {
        id,
        lbd,
        used: stays(lbd),
        len,
        is_reason: false,
        goes: false,
    }
}

// At how many reductions a clause of this LBD stays after it was used.
fn stays(lbd: u32) -> u32 {
    if lbd <= CLOSE { 2 } else { 1 }
}

// Whether a clause may go now. One that was used stays once less.
fn may_go(one: &mut Known) -> bool {
    let is_reason = one.is_reason;
    one.is_reason = false;
    if is_reason || one.lbd <= GLUE {
        return false;
    }
    if one.used > 0 {
        one.used -= 1;
        return false;
    }
    true
}
