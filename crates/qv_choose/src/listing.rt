//! For each place of a block the numbers of the formulas in which its variable stands.

ghost use Rattle.std.specs.Prelude.{◌≡◌, ◌<◌, ◌-◌, ◌≤◌, All, IfOk, OnOk, length};
ghost use Rattle.qv_words.specs.Tree.{IsQuantifierFree};
ghost use Rattle.qv_store.specs.Nodes.{tree_at};
ghost use Rattle.qv_store.specs.Walks.{named};
ghost use Rattle.qv_choose.specs.Listing.{numbers_in, AreListed, AreLess, IsNoted};
ghost use Rattle.qv_choose.specs.Listing.{IsPlaceAt, IsPlaceOf};
ghost use Rattle.qv_choose.specs.Listing.{ListsOne, NotesTree};

use qv_store::{Id, NoMemory, Node, Store, Walk};
use std::alloc::Global;

// For each place from `first` to `end` - 1 the numbers of the formulas in which its variable
// stands, in order, in time proportional to the sum of the formulas' distinct terms.
pub(crate) fn listed(
    alloc: Global,
    store: &Store,
    formulas: &[Id],
    first: u64,
    end: u64,
) -> Result<Vec<Vec<usize>>, NoMemory>
    requires ids { All (λ id. id < length store.now) formulas.now }
    requires free { All (λ id. IsQuantifierFree (tree_at store.now id)) formulas.now }
    requires block { first ≤ end }
    ensures many { IfOk result (λ lists. length lists.items ≡ end - first) }
    ensures listed { IfOk result (λ lists. AreListed first (named store.now formulas.now)
        (numbers_in lists.items)) }
{
    let mut lists = empty(alloc, end - first)?;
    'formulas: for number in 0..formulas.len() {
        list_one(alloc, store, formulas[number], number, first, &mut lists)?;
    }
    Ok(lists)
}

// So many lists of no numbers.
fn empty(alloc: Global, many: u64) -> Result<Vec<Vec<usize>>, NoMemory>
    ensures many { IfOk result (λ lists. length lists.items ≡ many) }
    ensures none { IfOk result (λ lists. AreLess 0 (numbers_in lists.items)) }
{
    let mut lists = Vec::new(alloc);
    'lists: for _count in 0..many {
        lists.push(Vec::new(alloc))?;
    }
    Ok(lists)
}

// Puts the number of a formula into the lists of the places that stand in it.
fn list_one(
    alloc: Global,
    store: &Store,
    formula: Id,
    number: usize,
    first: u64,
    lists: &mut [Vec<usize>],
) -> Result<(), NoMemory>
    requires id { formula < length store.now }
    requires free { IsQuantifierFree (tree_at store.now formula) }
    requires less { AreLess number (numbers_in lists.old) }
    ensures listed { OnOk result (ListsOne first number (tree_at store.now formula)
        (numbers_in lists.old) (numbers_in lists.new)) }
{
    let mut walk = Walk::new(alloc);
    walk.visit(store, formula)?;
    'terms: for term in walk.ids() {
        note_term(store, *term, number, first, lists)?;
    }
    Ok(())
}

// Puts a number into the list of the place whose variable a term is.
fn note_term(
    store: &Store,
    term: Id,
    number: usize,
    first: u64,
    lists: &mut [Vec<usize>],
) -> Result<(), NoMemory>
    requires { term < length store.now }
    ensures { OnOk result (NotesTree first number (tree_at store.now term)
        (numbers_in lists.old) (numbers_in lists.new)) }
{
    match place_of(store, term, first, lists.len()) {
        Some(place) => note(&mut lists[place], number),
        None => Ok(()),
    }
}

// The place whose variable a term is, counted from the first one of so many.
fn place_of(store: &Store, term: Id, first: u64, many: usize) -> Option<usize>
    requires { term < length store.now }
    ensures { IsPlaceOf first many (tree_at store.now term) result }
{
    match store.node(term) {
        Node::Var { level, .. } => place_at(*level, first, many),
        _ => None,
    }
}

fn place_at(level: u64, first: u64, many: usize) -> Option<usize>
    ensures { IsPlaceAt first many level result }
{
    if level < first {
        return None;
    }
    let place = (level - first) as usize;
    if place < many { Some(place) } else { None }
}

// Puts a number at the end of a list, unless it is there.
fn note(list: &mut Vec<usize>, number: usize) -> Result<(), NoMemory>
    ensures { OnOk result (IsNoted number list.old.items list.new.items) }
{
    let count = list.len();
    if count > 0 && list[count - 1] == number {
        return Ok(());
    }
    list.push(number)?;
    Ok(())
}
