//! The constants of formulas, in the order of their indices, which is that of their declaration.

ghost use Rattle.std.specs.Prelude.{◌≡◌, ◌<◌, ◌≤◌, ◌≢◌, ◌++◌, All, List, IfOk, IsTrue, OnOk, Err};
ghost use Rattle.std.specs.Prelude.{length, map, take, drop, slice_index_or};
ghost use Rattle.std.specs.Bool.{OnFalse};
ghost use Rattle.qv_words.specs.declared.sort.Sort.{Sort};
ghost use Rattle.qv_prenex.specs.declared.constants.Constant.{Constant};
ghost use Rattle.qv_words.specs.Problem.{in_order, with_constant};
ghost use Rattle.qv_words.specs.Tree.{Tree};
ghost use Rattle.qv_words.specs.Truth.{HaveOneSort, constants_of_each};
ghost use Rattle.qv_store.specs.Nodes.{node_tree, tree_at};
ghost use Rattle.qv_store.specs.Walks.{named, IsWalk};
ghost use Rattle.qv_prenex.specs.Constants.{pair_of, with_own, AreInOrder, HasSameConstants};

use crate::faults::PrenexFault;
use qv_store::{Id, NoMemory, Node, Store, Walk};
use qv_words::Sort;
use std::alloc::Global;

// A constant, by its index.
#[derive(Clone, Copy, Debug)]
pub(crate) struct Constant {
    pub(crate) index: u64,
    pub(crate) sort: Sort,
}

// The constants that stand in formulas, each once, in the order of their indices, unless they are
// more than there is room for.
pub(crate) fn constants_in(
    alloc: Global,
    store: &Store,
    formulas: &[Id],
    room: usize,
) -> Result<Vec<Constant>, PrenexFault>
    requires ids { All (λ id. id < length store.now) formulas.now }
    requires sorts { HaveOneSort (map (tree_at store.now) formulas.now) }
    ensures constants { IfOk result (λ constants. map pair_of constants.items
        ≡ in_order (constants_of_each (map (tree_at store.now) formulas.now))) }
    ensures within { IfOk result (λ constants. length constants.items ≤ room) }
    ensures over { result ≡ Err PrenexFault.PrefixLimit →
        room < length (in_order (constants_of_each (map (tree_at store.now) formulas.now))) }
{
    let terms = terms_below(alloc, store, formulas)?;
    let mut constants = Vec::new(alloc);
    'terms: for id in terms.ids() {
        put_own(&mut constants, store.node(*id))?;
        if constants.len() > room {
            return Err(PrenexFault::PrefixLimit);
        }
    }
    Ok(constants)
}

// The terms below formulas, each once.
fn terms_below(alloc: Global, store: &Store, formulas: &[Id]) -> Result<Walk, NoMemory>
    requires { All (λ id. id < length store.now) formulas.now }
    ensures walk { IfOk result (λ terms. IsWalk store.now terms) }
    ensures constants { IfOk result (λ terms. HasSameConstants (named store.now terms)
        (map (tree_at store.now) formulas.now)) }
{
    let mut terms = Walk::new(alloc);
    'formulas: for id in formulas {
        terms.visit(store, *id)?;
    }
    Ok(terms)
}

// Puts a term in its place among the constants if it is one, and isn't there.
fn put_own(constants: &mut Vec<Constant>, node: &Node) -> Result<(), NoMemory>
    requires { AreInOrder constants.old.items }
    ensures { OnOk result ((trees : List Tree) → map pair_of constants.new.items
        ≡ with_own (node_tree trees node.now) (map pair_of constants.old.items)) }
{
    match node {
        Node::Const { index, sort } => put_constant(constants, *index, *sort),
        _ => Ok(()),
    }
}

// Puts a constant in its place among others in the order of their indices, unless it is there.
fn put_constant(constants: &mut Vec<Constant>, index: u64, sort: Sort) -> Result<(), NoMemory>
    requires { AreInOrder constants.old.items }
    ensures { OnOk result (map pair_of constants.new.items
        ≡ with_constant (index, sort) (map pair_of constants.old.items)) }
{
    let at = place_for(constants, index);
    if has_index(constants, at, index) {
        return Ok(());
    }
    constants.insert(at, Constant { index, sort })?;
    Ok(())
}

// The first place whose constant's index isn't smaller. Most constants come in the order of their
// indices, so the end is looked at first.
fn place_for(constants: &[Constant], index: u64) -> usize
    requires { AreInOrder constants.now }
    ensures within { result ≤ length constants.now }
    ensures front { (sort : Sort) → with_constant (index, sort) (map pair_of constants.now)
        ≡ take result (map pair_of constants.now)
        ++ with_constant (index, sort) (drop result (map pair_of constants.now)) }
    ensures least { (d : Constant) → result < length constants.now →
        index ≤ (slice_index_or constants.now result d).index }
{
    let mut low = 0;
    let mut high = constants.len();
    if high > 0 && constants[high - 1].index < index {
        return high;
    }
    'halves: while low < high {
        let middle = low + (high - low) / 2;
        if constants[middle].index < index {
            low = middle + 1;
        } else {
            high = middle;
        }
    }
    low
}

// Whether the constant of this index stands at a place.
fn has_index(constants: &[Constant], at: usize, index: u64) -> bool
    ensures yes { IsTrue result → (at < length constants.now) ×
        ((d : Constant) → (slice_index_or constants.now at d).index ≡ index) }
    ensures no { OnFalse result ((d : Constant) → at < length constants.now →
        (slice_index_or constants.now at d).index ≢ index) }
{
    if at < constants.len() {
        constants[at].index == index
    } else {
        false
    }
}
