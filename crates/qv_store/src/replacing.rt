//! Terms with others put in for variables.

ghost use Rattle.std.specs.Prelude.{◌≡◌, ◌<◌, ◌++◌, All, IfOk, length, map, take};
ghost use Rattle.std.specs.List.{AllZip};
ghost use Rattle.qv_words.specs.Tree.{IsQuantifierFree};
ghost use Rattle.qv_words.specs.Replacement.{replaced, HasTheirSorts};
ghost use Rattle.qv_store.specs.Nodes.{tree_at, children};
ghost use Rattle.qv_store.specs.Stores.{StandsAt, Grows};
ghost use Rattle.qv_store.specs.Walks.{IsEarlier, IsFound};
ghost use Rattle.qv_store.specs.Replacing.{put_by_level, term_of_level, put_for, AreTermsOf};
ghost use Rattle.qv_store.specs.Replacing.{IsRenewed, IsNextPut};

use crate::id::Id;
use crate::node::Node;
use crate::store::{NoMemory, Store};
use crate::walk::Walk;
use smallvec::SmallVec;
use std::alloc::Global;

impl Store {
    /// The term in which each variable whose level has a term is replaced by it, in time
    /// proportional to the number of distinct terms below. Also where memory runs out the store
    /// keeps what was put.
    pub fn put_in(&mut self, id: Id, terms: &[Option<Id>]) -> Result<Id, NoMemory>
        requires id { id < length self.old }
        requires quantifier_free { IsQuantifierFree (tree_at self.old id) }
        requires terms { AreTermsOf self.old terms.now }
        requires sorts { HasTheirSorts (put_by_level self.old terms.now) (tree_at self.old id) }
        ensures id { IfOk result (λ made. StandsAt self.new made
            (replaced (put_by_level self.old terms.now) (tree_at self.old id))) }
        ensures grows { Grows self.old self.new }
    {
        let alloc = self.allocator();
        let mut walk = Walk::new(alloc);
        walk.visit(self, id)?;
        let mut made = Vec::new(alloc);
        'terms: for term in walk.ids() {
            let put = replace(self, *term, &walk, &made, terms)?;
            made.push(put)?;
        }
        Ok(*walk.result_of(&made, id))
    }
}

// The next term of a walk with others put in, over what was made of the terms before it.
fn replace(
    store: &mut Store,
    id: Id,
    walk: &Walk,
    made: &[Id],
    terms: &[Option<Id>],
) -> Result<Id, NoMemory>
    requires id { id < length store.old }
    requires next { IsNextPut store.old walk.now made.now terms.now id }
    ensures id { IfOk result (λ put. StandsAt store.new put
        (replaced (put_by_level store.old terms.now) (tree_at store.old id))) }
    ensures grows { Grows store.old store.new }
{
    let alloc = store.allocator();
    let node = store.node(id);
    if let Some(put) = put_for(node, terms) {
        return Ok(put);
    }
    let renewed = renew(alloc, node, walk, made)?;
    store.put(renewed)
}

// The term that is put in for a node.
fn put_for(node: &Node, terms: &[Option<Id>]) -> Option<Id>
    ensures { result ≡ put_for terms.now node.now }
{
    match node {
        Node::Var { level, .. } => term_of_level(terms, *level),
        _ => None,
    }
}

// The term of a level, if it has one.
fn term_of_level(terms: &[Option<Id>], level: u64) -> Option<Id>
    ensures { result ≡ term_of_level terms.now level }
{
    match terms.get(level as usize) {
        Some(held) => *held,
        None => None,
    }
}

// The node with what was made of its children.
fn renew(alloc: Global, node: &Node, walk: &Walk, made: &[Id]) -> Result<Node, NoMemory>
    requires { All (IsEarlier walk.now (length made.now)) (children node.now) }
    ensures { IfOk result (λ new. IsRenewed walk.now made.now node.now new) }
{
    match node {
        Node::App { op, kids } => Ok(Node::App {
            op: *op,
            kids: renew_all(alloc, kids.as_slice(), walk, made)?,
        }),
        Node::All { level, sort, body } => Ok(Node::All {
            level: *level,
            sort: *sort,
            body: *walk.result_of(made, *body),
        }),
        Node::Ex { level, sort, body } => Ok(Node::Ex {
            level: *level,
            sort: *sort,
            body: *walk.result_of(made, *body),
        }),
        Node::Const { .. } | Node::Var { .. } | Node::Lit { .. } => node.copy(alloc),
    }
}

// What was made of these terms.
fn renew_all(
    alloc: Global,
    kids: &[Id],
    walk: &Walk,
    made: &[Id],
) -> Result<SmallVec<Id, 3>, NoMemory>
    requires { All (IsEarlier walk.now (length made.now)) kids.now }
    ensures { IfOk result (λ new. AllZip (IsFound walk.now made.now) kids.now new.items) }
{
    let mut new = SmallVec::new(alloc);
    'kids: for kid in kids {
        new.push(*walk.result_of(made, *kid))?;
    }
    Ok(new)
}
