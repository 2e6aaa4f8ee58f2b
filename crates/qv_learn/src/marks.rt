//! Sets of variables.

ghost use Rattle.std.specs.Prelude.{◌≡◌, [], false, not, All, IfOk, OnOk, OnErr, slice_index_or, ℕ};
ghost use Rattle.qv_learn.specs.Marking.{marked, MarksOne};

use std::alloc::{AllocError, Global};
use std::marker::Model;

// A set of variables that is used again: it keeps a flag for each variable up to the greatest that
// was ever in it, and is emptied by what it has.
#[derive(Debug, Drop)]
pub(crate) struct Marks {
    // Whether each variable is in the set, from 0 on. Those behind the end aren't.
    flags: Vec<bool>,
    // The variables in the set, in the order in which they came.
    list: Vec<u32>,
}

impl Model for Marks {
    ghost use Rattle.std.specs.Prelude.{List, ℕ};
    ghost use Rattle.qv_learn.specs.Flags.{AreFlagged};

    ghost Value = { List ℕ };

    ghost view = { λ a. a.list.items };

    ghost invariant = { λ a. AreFlagged a.flags.items a.list.items };
}

impl Marks {
    pub(crate) fn new(alloc: Global) -> Marks
        ensures { result ≡ [] }
    {
        Marks {
            flags: Vec::new(alloc),
            list: Vec::new(alloc),
        }
    }

    // Marks the variable. Says whether it wasn't marked before.
    pub(crate) fn mark(&mut self, variable: u32) -> Result<bool, AllocError>
        ensures marks { OnOk result (MarksOne self.old variable self.new) }
        ensures new { IfOk result (λ new. new ≡ not (marked self.old variable)) }
        ensures same { IfOk result (λ new. new ≡ false → self.new ≡ self.old) }
        ensures err { OnErr result (self.new ≡ self.old) }
    {
        let place = variable as usize;
        if place >= self.flags.len() {
            self.flags.resize(place + 1, false)?;
        }
        if self.flags[place] {
            return Ok(false);
        }
        self.list.push(variable)?;
        self.flags[place] = true;
        Ok(true)
    }

    // Whether the variable is in the set.
    pub(crate) fn has(&self, variable: u32) -> bool
        ensures { result ≡ marked self.now variable }
    {
        match self.flags.get(variable as usize) {
            Some(flag) => *flag,
            None => false,
        }
    }

    // The variables in the set.
    pub(crate) fn list(&self) -> &[u32]
        ensures { result.now ≡ self.now }
    {
        &self.list
    }

    // Empties it.
    pub(crate) fn clear(&mut self)
        ensures { self.new ≡ [] }
    {
        unflag(&mut self.flags, &self.list);
        self.list.clear();
    }
}

// Takes away the flags of these variables, where there are no others.
fn unflag(flags: &mut [bool], list: &[u32])
    requires { (v : ℕ) → slice_index_or flags.old v false ≡ marked list.now v }
    ensures { (v : ℕ) → slice_index_or flags.new v false ≡ false }
{
    for variable in list {
        let place = *variable as usize;
        if place < flags.len() {
            flags[place] = false;
        }
    }
}
