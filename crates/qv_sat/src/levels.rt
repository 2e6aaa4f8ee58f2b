//! Over how many levels a clause goes.

use qv_cnf::Lit;
use qv_watch::Trail;
use std::alloc::{AllocError, Global};

// Counts levels, with memory that is used again.
#[derive(Drop)]
pub(crate) struct Levels {
    // For each level the last count that met it.
    stamps: Vec<u64>,
    count: u64,
}

impl Levels {
    pub(crate) fn new(alloc: Global) -> Levels {
        Levels {
            stamps: Vec::new(alloc),
            count: 0,
        }
    }

    // Makes room for the levels up to this one.
    pub(crate) fn room(&mut self, level: u32) -> Result<(), AllocError> {
        let width = level as usize + 1;
        if self.stamps.len() < width {
            self.stamps.resize(width, 0)?;
        }
        Ok(())
    }

    // The LBD of a clause: how many levels other than 0 its literals have, counted up to `most`.
    pub(crate) fn lbd(&mut self, trail: &Trail, lits: &[Lit], most: u32) -> u32 {
        self.count = self.count.wrapping_add(1);
        let mut lbd = 0u32;
        for lit in lits {
            if lbd >= most {
                return lbd;
            }
            if self.is_new(level_of(trail, *lit)) {
                lbd = lbd.saturating_add(1);
            }
        }
        lbd
    }

    // Whether this count meets the level for the first time.
    fn is_new(&mut self, level: u32) -> bool {
        let place = level as usize;
        if level == 0 || place >= self.stamps.len() || self.stamps[place] == self.count {
            return false;
        }
        self.stamps[place] = self.count;
        true
    }
}

// The level at which the literal's variable got its value, or 0 where it has none.
pub(crate) fn level_of(trail: &Trail, lit: Lit) -> u32 {
    match trail.value(lit) {
        Some(_) => trail.level_of(lit),
        None => 0,
    }
}
