//! The regions of level 1, and the first of them that holds there.

ghost use Rattle.std.specs.Prelude.{[], All, IsTrue};
ghost use Rattle.qv_entries.specs.Holding.{IsAskable};

use qv_cases_rows::Answer;
use qv_cases_terms::{has, say_terms};
use qv_game::Won;
use qv_store::{Id, NoMemory, Node, Store};
use qv_words::Sort;
use std::alloc::Global;

/// Says the winner's regions of level 1 and, where they are literals, which entry's is the first
/// that holds the point of level 1.
pub fn say_cover(alloc: Global, out: &mut Answer, store: &Store, won: &Won) {
    match won.entries.cover(1, won.winner) {
        Ok(regions) => {
            out.say(" | cover ");
            say_terms(alloc, out, store, &regions);
            if are_true(store, &regions) {
                say_first(out, won.entries.holds_at(store, 1, won.winner, &[]));
            }
        }
        Err(_) => out.refuse(),
    }
}

fn say_first(out: &mut Answer, first: Result<Option<u64>, NoMemory>) {
    match first {
        Ok(Some(number)) => {
            out.say(" by ");
            out.show(number);
        }
        Ok(None) => out.say(" by none"),
        Err(_) => out.refuse(),
    }
}

// Whether each of these terms is a truth value.
fn are_true(store: &Store, ids: &[Id]) -> bool
    ensures { IsTrue result → All (IsAskable store.now []) ids.now }
{
    'each: for id in ids {
        if !is_true(store, *id) {
            return false;
        }
    }
    true
}

fn is_true(store: &Store, id: Id) -> bool
    ensures { IsTrue result → IsAskable store.now [] id }
{
    if !has(store, id) {
        return false;
    }
    match store.node(id) {
        Node::Lit { word } => word.sort() == Sort::Bool,
        _ => false,
    }
}
