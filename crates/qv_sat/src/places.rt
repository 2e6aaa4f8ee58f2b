//! Where the clauses of ids stand in a list.

use std::alloc::{AllocError, Global};

// A greater gap between ids isn't filled.
const GAP: u64 = 1 << 12;

// The places of ids from the first on, as they were set last. An id for which none was set has a
// place all the same: who asks looks whether it is right.
#[derive(Drop)]
pub(crate) struct Places {
    first: u64,
    places: Vec<u32>,
}

impl Places {
    pub(crate) fn new(alloc: Global) -> Places {
        Places {
            first: 0,
            places: Vec::new(alloc),
        }
    }

    // The place of an id, if the ids from the first on reach to it.
    pub(crate) fn get(&self, id: u64) -> Option<usize> {
        let offset = id.checked_sub(self.first)?;
        let place = self.places.get(offset as usize)?;
        Some(*place as usize)
    }

    // Sets the place of an id that doesn't come before the first.
    pub(crate) fn set(&mut self, id: u64, place: usize) -> Result<(), AllocError> {
        self.reach(id)?;
        let Ok(place) = u32::try_from(place) else {
            return Ok(());
        };
        let offset = id.saturating_sub(self.first) as usize;
        if id >= self.first && offset < self.places.len() {
            self.places[offset] = place;
        }
        Ok(())
    }

    // Makes the ids reach to this one. Behind a great gap it is the first.
    fn reach(&mut self, id: u64) -> Result<(), AllocError> {
        let count = self.places.len() as u64;
        if count == 0 || id.saturating_sub(self.first) > count.saturating_add(GAP) {
            self.places.clear();
            self.first = id;
        }
        let width = (id.saturating_sub(self.first) as usize).saturating_add(1);
        if self.places.len() < width {
            self.places.resize(width, 0)?;
        }
        Ok(())
    }
}
