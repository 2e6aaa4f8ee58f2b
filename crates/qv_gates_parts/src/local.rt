//! Unit propagation over a few clauses, to find hints.

use qv_cnf::{Clause, Lit};
use std::alloc::{AllocError, Global};

// A clause near by, and its id.
#[derive(Drop)]
struct Near {
    id: u64,
    lits: Clause,
}

// A literal that became true, and the place of the clause that forced it, if one did.
#[derive(Clone, Copy)]
struct Reached {
    lit: Lit,
    reason: Option<usize>,
}

// What a clause says under the values.
enum Says {
    False,
    Unit(Lit),
    Nothing,
}

/// Few clauses, the values of variables, and the hints that were found last.
#[derive(Drop)]
pub(crate) struct Local {
    alloc: Global,
    near: Vec<Near>,
    values: Vec<Option<bool>>,
    trail: Vec<Reached>,
    hints: Vec<i64>,
}

impl Local {
    /// No clause is near.
    pub(crate) fn new(alloc: Global) -> Local {
        Local {
            alloc,
            near: Vec::new(alloc),
            values: Vec::new(alloc),
            trail: Vec::new(alloc),
            hints: Vec::new(alloc),
        }
    }

    /// Makes room for the variables below this one.
    pub(crate) fn make_room(&mut self, variables: usize) -> Result<(), AllocError> {
        self.values.resize(variables, None)
    }

    /// No clause is near.
    pub(crate) fn clear(&mut self) {
        self.near.clear();
    }

    /// One more clause is near.
    pub(crate) fn push(&mut self, id: u64, lits: &[Lit]) -> Result<(), AllocError> {
        let lits = Clause::from_slice(self.alloc, lits)?;
        self.near.push(Near { id, lits })?;
        Ok(())
    }

    /// The hints that were found last.
    pub(crate) fn hints(&self) -> &[i64] {
        &self.hints
    }

    /// Whether a clause follows from those near by unit propagation. Then the hints say how.
    pub(crate) fn finds(&mut self, lits: &[Lit]) -> Result<bool, AllocError> {
        self.deny(lits)?;
        self.derive()
    }

    /// The same of the clause with one more literal.
    pub(crate) fn finds_with(&mut self, lits: &[Lit], more: Lit) -> Result<bool, AllocError> {
        self.deny(lits)?;
        self.put(more.negated(), None)?;
        self.derive()
    }

    // Makes all literals of a clause false.
    fn deny(&mut self, lits: &[Lit]) -> Result<(), AllocError> {
        for lit in lits {
            self.put(lit.negated(), None)?;
        }
        Ok(())
    }

    // Whether some clause is false in the end. All values are taken away again.
    fn derive(&mut self) -> Result<bool, AllocError> {
        self.hints.clear();
        match self.conflict()? {
            Some(place) => {
                self.gather(place)?;
                Ok(true)
            }
            None => {
                self.reset();
                Ok(false)
            }
        }
    }

    fn value(&self, lit: Lit) -> Option<bool> {
        match self.values.get(lit.variable() as usize) {
            Some(Some(value)) => Some(*value == lit.is_positive()),
            _ => None,
        }
    }

    fn put(&mut self, lit: Lit, reason: Option<usize>) -> Result<(), AllocError> {
        if self.value(lit).is_some() {
            return Ok(());
        }
        self.trail.push(Reached { lit, reason })?;
        if let Some(place) = self.values.get_mut(lit.variable() as usize) {
            *place = Some(lit.is_positive());
        }
        Ok(())
    }

    fn reads(&self, lits: &[Lit]) -> Says {
        let mut open = None;
        for lit in lits {
            match (self.value(*lit), open) {
                (Some(true), _) => return Says::Nothing,
                (Some(false), _) => {}
                (None, None) => open = Some(*lit),
                (None, Some(other)) => {
                    if other != *lit {
                        return Says::Nothing;
                    }
                }
            }
        }
        match open {
            None => Says::False,
            Some(lit) => Says::Unit(lit),
        }
    }

    // What the clause at a place says.
    fn says(&self, place: usize) -> Says {
        match self.near.get(place) {
            Some(near) => self.reads(near.lits.as_slice()),
            None => Says::Nothing,
        }
    }

    // The place of a clause that is false in the end, if there is one.
    fn conflict(&mut self) -> Result<Option<usize>, AllocError> {
        for _pass in 0..self.near.len() {
            let before = self.trail.len();
            let found = self.pass()?;
            if found.is_some() {
                return Ok(found);
            }
            if self.trail.len() == before {
                return Ok(None);
            }
        }
        Ok(None)
    }

    // Looks at each clause once.
    fn pass(&mut self) -> Result<Option<usize>, AllocError> {
        for place in 0..self.near.len() {
            match self.says(place) {
                Says::False => return Ok(Some(place)),
                Says::Unit(lit) => self.put(lit, Some(place))?,
                Says::Nothing => {}
            }
        }
        Ok(None)
    }

    // Takes all values away.
    fn reset(&mut self) {
        for reached in &self.trail {
            forget(&mut self.values, reached.lit);
        }
        self.trail.clear();
    }

    // The hints that lead to a false clause: what has no value any more is needed.
    fn gather(&mut self, place: usize) -> Result<(), AllocError> {
        self.need(place)?;
        for place in (0..self.trail.len()).rev() {
            self.trace(place)?;
        }
        self.trail.clear();
        self.hints.reverse();
        Ok(())
    }

    // The literal at a place of the trail loses its value. If it's needed, so is its reason.
    fn trace(&mut self, place: usize) -> Result<(), AllocError> {
        let Some(reached) = self.trail.get(place).copied() else {
            return Ok(());
        };
        let is_needed = self.value(reached.lit).is_none();
        forget(&mut self.values, reached.lit);
        match reached.reason {
            Some(reason) if is_needed => self.need(reason),
            _ => Ok(()),
        }
    }

    // The clause at a place is a hint.
    fn need(&mut self, place: usize) -> Result<(), AllocError> {
        if let Some(near) = self.near.get(place) {
            self.hints.push(i64::try_from(near.id).unwrap_or(i64::MAX))?;
            for lit in near.lits.iter() {
                forget(&mut self.values, *lit);
            }
        }
        Ok(())
    }
}

// The literal's variable has no value any more.
fn forget(values: &mut [Option<bool>], lit: Lit) {
    if let Some(place) = values.get_mut(lit.variable() as usize) {
        *place = None;
    }
}
