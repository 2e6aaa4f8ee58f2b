//! The `ite` between bit-vectors at which a term is split, since its condition is quantified.

ghost use Rattle.std.specs.Prelude.{◌≡◌, ◌<◌, [], All, None, IfOk, IfSome, OnOk};
ghost use Rattle.std.specs.Prelude.{MatchOption, option_map, length};
ghost use Rattle.qv_words.specs.Tree.{Apply, tree_sort};
ghost use Rattle.qv_words.specs.Prenex.{ite, own_choice, put_for, first_choice, first_choice_of};
ghost use Rattle.qv_store.specs.Nodes.{tree_at, trees_at};
ghost use Rattle.qv_store.specs.Stores.{StandsAt, AreShared, Grows};
ghost use Rattle.qv_prenex_splits.specs.Splitting.{ite_in, IsIteIn, bit_ite, AreBare, IsFirstKid};
ghost use Rattle.qv_prenex_splits.specs.Splitting.{LooksAt, LooksAmong};
ghost use Rattle.qv_prenex_splits.specs.Sides.{IsFirstIte};
ghost use Rattle.qv_prenex_splits.specs.Rebuilding.{term_top, AreRebuilt};

use crate::memo::Memo;
use crate::rebuilding::rebuild_term;
use crate::split_store::SplitStore;
use qv_store::{Id, NoMemory, Node};
use qv_words::{Op, Sort};
use std::alloc::Global;
use std::collections::HashSet;

// An `ite` between bit-vectors whose condition is quantified.
#[derive(Clone, Copy)]
pub(crate) struct BitIte {
    pub(crate) whole: Id,
    pub(crate) condition: Id,
    pub(crate) yes: Id,
    pub(crate) no: Id,
}

// What is seen of a term: it is the `ite` that is looked for, or a term below it has to be looked
// at first, or there is none in it.
#[derive(Clone, Copy)]
enum Seen {
    Ite(BitIte),
    First(Id),
    Nothing,
}

// The first one in pre-order that stands below no quantifier and has a quantified condition. It is
// kept for the terms above it, too.
pub(crate) fn first_ite(
    alloc: Global,
    store: &mut SplitStore,
    root: Id,
) -> Result<Option<BitIte>, NoMemory>
    requires { root < length store.old }
    ensures first { IfOk result (λ found. option_map (ite_in store.old) found
        ≡ first_choice (tree_at store.old root)) }
    ensures there { IfOk result (λ found. IfSome found (IsIteIn store.old)) }
    ensures store { store.new ≡ store.old }
{
    let mut above = Vec::new(alloc);
    let found = find_ite(alloc, store, &mut above, root)?;
    if let Some(ite) = &found {
        keep_firsts(store, &above, ite)?;
    }
    Ok(found)
}

// Keeps the first `ite` of some terms.
fn keep_firsts(store: &mut SplitStore, above: &[Id], ite: &BitIte) -> Result<(), NoMemory>
    requires { All (λ id. IsFirstIte store.old id ite.now) above.now }
    ensures { store.new ≡ store.old }
{
    'each: for id in above {
        store.keep_first(*id, ite)?;
    }
    Ok(())
}

// The first `ite`, as above. The terms on the way down to the one at hand wait for it, so at the
// end those are left of which it is the first one.
fn find_ite(
    alloc: Global,
    store: &SplitStore,
    waiting: &mut Vec<Id>,
    root: Id,
) -> Result<Option<BitIte>, NoMemory>
    requires root { root < length store.now }
    requires waiting { waiting.old.items ≡ [] }
    ensures first { IfOk result (λ found. option_map (ite_in store.now) found
        ≡ first_choice (tree_at store.now root)) }
    ensures there { IfOk result (λ found. IfSome found (IsIteIn store.now)) }
    ensures above { IfOk result (λ found. IfSome found (λ ite.
        All (λ id. IsFirstIte store.now id ite) waiting.new.items)) }
{
    let mut bare = HashSet::new(alloc);
    let mut id = root;
    'down: loop {
        match look(store, &bare, id) {
            Seen::Ite(ite) => return Ok(Some(ite)),
            Seen::First(kid) => {
                waiting.push(id)?;
                id = kid;
            }
            Seen::Nothing => {
                bare.insert(id)?;
                match waiting.pop() {
                    Some(parent) => id = parent,
                    None => return Ok(None),
                }
            }
        }
    }
}

// What is seen of a term, where some others have no such `ite` in them.
fn look(store: &SplitStore, bare: &HashSet<Id>, id: Id) -> Seen
    requires id { id < length store.now }
    requires bare { AreBare store.now bare.now }
    ensures { LooksAt store.now bare.now id result }
{
    match store.first(id) {
        Some(ite) => Seen::Ite(ite),
        None => look_anew(store, bare, id),
    }
}

// The same of a term whose first `ite` wasn't found yet.
fn look_anew(store: &SplitStore, bare: &HashSet<Id>, id: Id) -> Seen
    requires id { id < length store.now }
    requires bare { AreBare store.now bare.now }
    ensures { LooksAt store.now bare.now id result }
{
    match store.node(id) {
        Node::App { op, kids } => match own_ite(store, id, *op, kids.as_slice()) {
            Some(ite) => Seen::Ite(ite),
            None => look_below(store, bare, kids.as_slice()),
        },
        _ => Seen::Nothing,
    }
}

// What is seen of the arguments of an application that is no such `ite` itself.
fn look_below(store: &SplitStore, bare: &HashSet<Id>, kids: &[Id]) -> Seen
    requires kids { All (λ kid. kid < length store.now) kids.now }
    requires bare { AreBare store.now bare.now }
    ensures { LooksAmong store.now bare.now kids.now result }
{
    match first_kid(store, bare, kids) {
        Some(kid) => Seen::First(kid),
        None => Seen::Nothing,
    }
}

// The first of these terms that may have such an `ite` in it.
fn first_kid(store: &SplitStore, bare: &HashSet<Id>, kids: &[Id]) -> Option<Id>
    requires kids { All (λ kid. kid < length store.now) kids.now }
    requires bare { AreBare store.now bare.now }
    ensures { MatchOption result (first_choice_of (trees_at store.now kids.now) ≡ None)
        (λ kid. IsFirstKid store.now bare.now kids.now kid) }
{
    for kid in kids {
        if store.quantified(*kid) && !bare.contains(kid) {
            return Some(*kid);
        }
    }
    None
}

// The application itself, where it is such an `ite`.
fn own_ite(store: &SplitStore, id: Id, op: Op, kids: &[Id]) -> Option<BitIte>
    requires id { StandsAt store.now id (Apply op (trees_at store.now kids.now)) }
    requires kids { All (λ kid. kid < length store.now) kids.now }
    ensures own { option_map (ite_in store.now) result
        ≡ own_choice op (trees_at store.now kids.now) }
    ensures there { IfSome result (IsIteIn store.now) }
{
    match op {
        Op::Ite => match kids {
            [condition, yes, no] => bit_ite(store, id, *condition, *yes, *no),
            _ => None,
        },
        _ => None,
    }
}

// The `ite` of these terms, where it is between bit-vectors and its condition is quantified.
fn bit_ite(store: &SplitStore, whole: Id, condition: Id, yes: Id, no: Id) -> Option<BitIte>
    requires whole { StandsAt store.now whole (ite (tree_at store.now condition)
        (tree_at store.now yes) (tree_at store.now no)) }
    requires condition { condition < length store.now }
    requires yes { yes < length store.now }
    requires no { no < length store.now }
    ensures own { option_map (ite_in store.now) result
        ≡ bit_ite (tree_at store.now condition) (tree_at store.now yes)
        (tree_at store.now no) }
    ensures there { IfSome result (IsIteIn store.now) }
{
    if store.quantified(condition) && store.sort(yes) != Sort::Bool {
        Some(BitIte {
            whole,
            condition,
            yes,
            no,
        })
    } else {
        None
    }
}

// The term in which one side of an `ite` stands for it wherever it stands below no quantifier. What
// was made of terms is kept for the next call.
pub(crate) fn put_for(
    alloc: Global,
    store: &mut SplitStore,
    id: Id,
    ite: &BitIte,
    put: Id,
    made: &mut Memo,
) -> Result<Id, NoMemory>
    requires id { id < length store.old }
    requires ite { IsIteIn store.old ite.now }
    requires put { put < length store.old }
    requires sort { tree_sort (tree_at store.old put)
        ≡ tree_sort (tree_at store.old ite.now.whole) }
    requires shared { AreShared store.old }
    requires made { AreRebuilt (term_top (tree_at store.old ite.now.whole)
        (tree_at store.old put)) store.old made.old }
    ensures id { IfOk result (λ new. StandsAt store.new new (put_for
        (tree_at store.old ite.now.whole) (tree_at store.old put) (tree_at store.old id))) }
    ensures made { OnOk result (AreRebuilt (term_top (tree_at store.old ite.now.whole)
        (tree_at store.old put)) store.new made.new) }
    ensures grows { Grows store.old store.new }
    ensures shared { AreShared store.new }
{
    rebuild_term(alloc, store, ite.whole, put, made, id)
}
