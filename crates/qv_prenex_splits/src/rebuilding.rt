//! Terms with others put in above their quantifiers, each term once.

ghost use Rattle.std.specs.Prelude.{◌≡◌, ◌<◌, None, All, IfOk, OnOk, length};
ghost use Rattle.qv_words.specs.Sorted.{IsSorted};
ghost use Rattle.qv_store.specs.Nodes.{tree_at};
ghost use Rattle.qv_store.specs.Stores.{StandsAt, AreShared, Grows};
ghost use Rattle.qv_prenex_splits.specs.Rebuilt.{rebuilt, IsPutAt};
ghost use Rattle.qv_prenex_splits.specs.Naming.{renaming, AreTermsOf};
ghost use Rattle.qv_prenex_splits.specs.Memos.{made_in};
ghost use Rattle.qv_prenex_splits.specs.Rebuilding.{top_in, IsChangeIn, AreRebuilt, AreRenewed, IsFoundAt};
ghost use Rattle.qv_prenex_splits.specs.Rebuilding.{IsFoundOver, Steps, term_top, stays};

use crate::memo::{Memo, reach_of};
use crate::naming::Names;
use crate::split_store::SplitStore;
use qv_store::{Id, NoMemory, Node};
use qv_words::Op;
use smallvec::SmallVec;
use std::alloc::Global;

// What is put in: a term for another one, or what stands for constants and variables.
#[derive(Clone, Copy)]
pub(crate) enum Change {
    Term { target: Id, put: Id },
    Names,
}

// What is found of a term: no application, an application with an argument of which nothing was
// made yet, or one with what was made of its arguments.
#[derive(Drop)]
enum Found {
    Leaf,
    Missing(Id),
    Ready(Op, SmallVec<Id, 3>),
}

// What is made of a term, or what has to be made first.
#[derive(Clone, Copy)]
enum Step {
    Made(Id),
    First(Id),
}

// The arguments of an application as they were made, or one of which nothing was.
#[derive(Drop)]
enum Renewed {
    Missing(Id),
    All(SmallVec<Id, 3>),
}

/// The term with places for its constants and for the variables that are bound outside. What was
/// made of terms is kept for the next call.
pub fn rename(
    alloc: Global,
    store: &mut SplitStore,
    names: &Names,
    made: &mut Memo,
    id: Id,
) -> Result<Id, NoMemory>
    requires id { id < length store.old }
    requires names { AreTermsOf store.old names.now.outer }
    requires sorted { IsSorted
        (rebuilt (renaming store.old names.now) (tree_at store.old id)) }
    requires made { AreRebuilt (renaming store.old names.now) store.old made.old }
    ensures id { IfOk result (λ new. StandsAt store.new new
        (rebuilt (renaming store.old names.now) (tree_at store.old id))) }
    ensures made { OnOk result (
        AreRebuilt (renaming store.old names.now) store.new made.new) }
    ensures grows { Grows store.old store.new }
    ensures shared { AreShared store.new }
{
    rebuild(alloc, store, &Change::Names, names, made, id)
}

// The term in which the change is made. What was made of terms is kept for the next call.
fn rebuild(
    alloc: Global,
    store: &mut SplitStore,
    change: &Change,
    names: &Names,
    made: &mut Memo,
    id: Id,
) -> Result<Id, NoMemory>
    requires id { id < length store.old }
    requires change { IsChangeIn store.old change.now names.now }
    requires sorted { IsSorted
        (rebuilt (top_in store.old change.now names.now) (tree_at store.old id)) }
    requires made { AreRebuilt (top_in store.old change.now names.now) store.old made.old }
    ensures id { IfOk result (λ new. StandsAt store.new new
        (rebuilt (top_in store.old change.now names.now) (tree_at store.old id))) }
    ensures made { OnOk result (
        AreRebuilt (top_in store.old change.now names.now) store.new made.new) }
    ensures grows { Grows store.old store.new }
    ensures shared { AreShared store.new }
{
    let _few = store.len();
    match made.get(id) {
        Some(new) => Ok(new),
        None => rebuild_one(alloc, store, change, names, made, id),
    }
}

// The term in which another is put for a term wherever that stands below no quantifier. What was
// made of terms is kept for the next call.
pub(crate) fn rebuild_term(
    alloc: Global,
    store: &mut SplitStore,
    target: Id,
    put: Id,
    made: &mut Memo,
    id: Id,
) -> Result<Id, NoMemory>
    requires id { id < length store.old }
    requires target { target < length store.old }
    requires put { put < length store.old }
    requires sorted { IsSorted (rebuilt (term_top (tree_at store.old target)
        (tree_at store.old put)) (tree_at store.old id)) }
    requires made { AreRebuilt (term_top (tree_at store.old target) (tree_at store.old put))
        store.old made.old }
    ensures id { IfOk result (λ new. StandsAt store.new new
        (rebuilt (term_top (tree_at store.old target) (tree_at store.old put))
        (tree_at store.old id))) }
    ensures made { OnOk result (AreRebuilt
        (term_top (tree_at store.old target) (tree_at store.old put)) store.new made.new) }
    ensures grows { Grows store.old store.new }
    ensures shared { AreShared store.new }
{
    let names = Names::new(alloc);
    rebuild(
        alloc,
        store,
        &Change::Term { target, put },
        &names,
        made,
        id,
    )
}

// The same for a term of which nothing was made. The terms on the way down to the one at hand wait
// for it.
fn rebuild_one(
    alloc: Global,
    store: &mut SplitStore,
    change: &Change,
    names: &Names,
    made: &mut Memo,
    root: Id,
) -> Result<Id, NoMemory>
    requires id { root < length store.old }
    requires change { IsChangeIn store.old change.now names.now }
    requires sorted { IsSorted
        (rebuilt (top_in store.old change.now names.now) (tree_at store.old root)) }
    requires missing { made_in made.old root ≡ None }
    requires made { AreRebuilt (top_in store.old change.now names.now) store.old made.old }
    requires shared { AreShared store.old }
    ensures id { IfOk result (λ new. StandsAt store.new new
        (rebuilt (top_in store.old change.now names.now) (tree_at store.old root))) }
    ensures made { OnOk result (
        AreRebuilt (top_in store.old change.now names.now) store.new made.new) }
    ensures grows { Grows store.old store.new }
    ensures shared { AreShared store.new }
{
    let mut waiting = Vec::new(alloc);
    let mut id = root;
    'down: loop {
        match make_next(alloc, store, change, names, made, id)? {
            Step::First(kid) => {
                waiting.push(id)?;
                id = kid;
            }
            Step::Made(new) => {
                let reach = reach_of(store, made, id);
                made.insert(id, new, reach)?;
                match waiting.pop() {
                    Some(parent) => id = parent,
                    None => return Ok(new),
                }
            }
        }
    }
}

// What is made of a term, or an argument of which something has to be made first.
fn make_next(
    alloc: Global,
    store: &mut SplitStore,
    change: &Change,
    names: &Names,
    made: &Memo,
    id: Id,
) -> Result<Step, NoMemory>
    requires id { id < length store.old }
    requires change { IsChangeIn store.old change.now names.now }
    requires sorted { IsSorted
        (rebuilt (top_in store.old change.now names.now) (tree_at store.old id)) }
    requires made { AreRebuilt (top_in store.old change.now names.now) store.old made.now }
    requires shared { AreShared store.old }
    ensures step { IfOk result (
        Steps (top_in store.old change.now names.now) store.old store.new made.now id) }
    ensures grows { Grows store.old store.new }
    ensures shared { AreShared store.new }
{
    if stays(change, id) {
        return Ok(Step::Made(id));
    }
    if let Some(put) = top(store, change, names, id)? {
        return Ok(Step::Made(put));
    }
    match find(alloc, store, made, id)? {
        Found::Leaf => Ok(Step::Made(id)),
        Found::Missing(kid) => Ok(Step::First(kid)),
        Found::Ready(op, kids) => Ok(Step::Made(store.put(Node::App { op, kids })?)),
    }
}

// Whether a term came before the one for which another is put, which so doesn't stand in it.
fn stays(change: &Change, id: Id) -> bool
    ensures { result ≡ stays change.now id }
{
    match change {
        Change::Term { target, .. } => id.number() < target.number(),
        Change::Names => false,
    }
}

// What is put for a term as a whole, if anything is.
fn top(
    store: &mut SplitStore,
    change: &Change,
    names: &Names,
    id: Id,
) -> Result<Option<Id>, NoMemory>
    requires id { id < length store.old }
    requires change { IsChangeIn store.old change.now names.now }
    ensures put { IfOk result (IsPutAt store.new
        (top_in store.old change.now names.now (tree_at store.old id))) }
    ensures grows { Grows store.old store.new }
    ensures shared { AreShared store.new }
{
    match change {
        Change::Term { target, put } => Ok(top_term(store, *target, *put, id)),
        Change::Names => names.top(store, id),
    }
}

// The term that is put for the target. A term without quantifiers stays.
fn top_term(store: &SplitStore, target: Id, put: Id, id: Id) -> Option<Id>
    requires id { id < length store.now }
    requires target { target < length store.now }
    requires put { put < length store.now }
    ensures put { IsPutAt store.now
        (term_top (tree_at store.now target) (tree_at store.now put) (tree_at store.now id))
        result }
    ensures shared { AreShared store.now }
{
    let _few = store.len();
    if id == target {
        Some(put)
    } else if !store.quantified(id) {
        Some(id)
    } else {
        None
    }
}

// What a term is, over what was made of others.
fn find(alloc: Global, store: &SplitStore, made: &Memo, id: Id) -> Result<Found, NoMemory>
    requires { id < length store.now }
    ensures found { IfOk result (IsFoundAt store.now made.now id) }
{
    match store.node(id) {
        Node::App { op, kids } => find_application(alloc, made, *op, kids.as_slice()),
        _ => Ok(Found::Leaf),
    }
}

fn find_application(alloc: Global, made: &Memo, op: Op, kids: &[Id]) -> Result<Found, NoMemory>
    ensures found { IfOk result (IsFoundOver made.now op kids.now) }
{
    match renew_all(alloc, made, kids)? {
        Renewed::Missing(kid) => Ok(Found::Missing(kid)),
        Renewed::All(new) => Ok(Found::Ready(op, new)),
    }
}

// What was made of these terms.
fn renew_all(alloc: Global, made: &Memo, kids: &[Id]) -> Result<Renewed, NoMemory>
    ensures { IfOk result (AreRenewed made.now kids.now) }
{
    let mut new = SmallVec::new(alloc);
    'kids: for kid in kids {
        match made.get(*kid) {
            Some(id) => new.push(id)?,
            None => return Ok(Renewed::Missing(*kid)),
        }
    }
    Ok(Renewed::All(new))
}
