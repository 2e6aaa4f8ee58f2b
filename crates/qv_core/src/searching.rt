//! The items of a search for a core.

ghost use Rattle.std.specs.Prelude.{◌≡◌, ◌≤◌, ◌<◌, IfSome, drop, length};
ghost use Rattle.qv_core.specs.Searching.{first_from};

use std::alloc::{AllocError, Global};
use std::marker::Model;

/// A search for a core among numbered items. One after another is left out for a trial, and is
/// dropped where what is left is still without a model. Items may be dropped without a trial.
#[derive(Debug, Drop)]
pub struct CoreSearch {
    // Whether each item is kept.
    kept: Vec<bool>,
    // The items below this one were tried, or dropped.
    next: usize,
}

impl Model for CoreSearch {
    ghost use Rattle.std.specs.Prelude.{◌≤◌, length};
    ghost use Rattle.qv_core.specs.Searching.{Search};

    ghost Value = { Search };

    ghost view = { λ a. record { kept = a.kept.items; next = a.next } };

    ghost invariant = { λ a. a.next ≤ length a.kept.items };
}

// The first item that is kept, from this one on.
fn first_kept(kept: &[bool], from: usize) -> Option<usize>
    requires { from ≤ length kept.now }
    ensures first { result ≡ first_from from (drop from kept.now) }
    ensures within { IfSome result (λ item. item < length kept.now) }
{
    let mut at = from;
    'items: while at < kept.len() {
        if kept[at] {
            return Some(at);
        }
        at += 1;
    }
    None
}

impl CoreSearch {
    ghost use Rattle.std.specs.Prelude.{◌≡◌, ◌<◌, IfOk, IsSome, length, slice_index_or, false};
    ghost use Rattle.qv_core.specs.Searching.{answered, begun, trial_of, without_item};

    /// All of so many items are kept, and none was tried.
    pub fn new(alloc: Global, count: u64) -> Result<CoreSearch, AllocError>
        ensures { IfOk result (λ search. search ≡ begun count) }
    {
        let mut kept = Vec::new(alloc);
        kept.resize(count as usize, true)?;
        Ok(CoreSearch { kept, next: 0 })
    }

    /// Drops an item without a trial.
    pub fn leave_out(&mut self, item: u64)
        requires { item < length self.old.kept }
        ensures { self.new ≡ without_item item self.old }
    {
        self.kept[item as usize] = false;
    }

    /// The item to leave out next. There is none exactly where each was tried or dropped.
    pub fn trial(&self) -> Option<u64>
        ensures { result ≡ trial_of self.now }
    {
        let item = first_kept(&self.kept, self.next)?;
        Some(item as u64)
    }

    /// Whether the item is kept so far.
    pub fn kept(&self, item: u64) -> bool
        requires { item < length self.now.kept }
        ensures { result ≡ slice_index_or self.now.kept item false }
    {
        self.kept[item as usize]
    }

    /// The answer of a trial: the item is dropped where what is left has still no model.
    pub fn answer(&mut self, still_unsat: bool)
        requires { IsSome (trial_of self.old) }
        ensures { self.new ≡ answered still_unsat self.old }
    {
        if let Some(item) = first_kept(&self.kept, self.next) {
            if still_unsat {
                self.kept[item] = false;
            }
            self.next = item + 1;
        }
    }
}
