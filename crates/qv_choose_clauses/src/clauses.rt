//! What the terms below a region are as clauses.

ghost use Rattle.std.specs.Prelude.{◌≡◌, ◌<◌, All, IfOk, Some, length, slice_get};
ghost use Rattle.qv_words.specs.declared.sort.Sort.TheVariants.{Bool as BoolSort};
ghost use Rattle.qv_words.specs.Rank.{sort_eq};
ghost use Rattle.qv_words.specs.Tree.{Variable, Apply};
ghost use Rattle.qv_words.specs.Equality.{tree_eq};
ghost use Rattle.qv_words.specs.Choice.{opposite};
ghost use Rattle.qv_store.specs.Nodes.{tree_at, trees_at};
ghost use Rattle.qv_store.specs.Walks.{IsEarlier};
ghost use Rattle.qv_choose_paths.specs.Sights.{IsScene};
ghost use Rattle.qv_choose_clauses.specs.Clauses.{clause_of, both_of, single_of, alone_of, looks_apart};
ghost use Rattle.qv_choose_clauses.specs.Clauses.{AreClauses};

use crate::sides::sides_of;
use qv_choose_paths::{Look, Sight, Way};
use qv_store::{Id, NoMemory, Node, Store};
use qv_words::{Op, Sort};
use std::alloc::Global;

/// A clause: whether the place's negation is a disjunct, and whether all other disjuncts are apart
/// from the place and its block.
#[derive(Clone, Copy)]
pub struct Clause {
    pub opposite: bool,
    pub apart: bool,
}

// What the terms of a region are, in time proportional to their number.
pub(crate) fn clauses(alloc: Global, store: &Store, sight: &Sight) -> Result<Vec<Clause>, NoMemory>
    requires { IsScene store.now sight.now }
    ensures many { IfOk result (λ clauses. length clauses.items ≡ length sight.now.walk) }
    ensures clauses { IfOk result (λ clauses. AreClauses sight.now.place store.now sight.now.walk
        clauses.items) }
{
    let mut clauses = Vec::new(alloc);
    'terms: for term in sight.walk.ids() {
        let clause = clause_of(store, sight, &clauses, *term);
        clauses.push(clause)?;
    }
    Ok(clauses)
}

// What the next term is, over what was found for those before it.
fn clause_of(store: &Store, sight: &Sight, clauses: &[Clause], id: Id) -> Clause
    requires scene { IsScene store.now sight.now }
    requires at { slice_get sight.now.walk (length clauses.now) ≡ Some id }
    requires clauses { AreClauses sight.now.place store.now sight.now.walk clauses.now }
    ensures { result ≡ clause_of sight.now.place (tree_at store.now id) }
{
    match sides_of(store, id, false) {
        Some(sides) => both(
            *sight.walk.result_of(clauses, sides.0),
            *sight.walk.result_of(clauses, sides.1),
        ),
        None => alone(store, sight, id),
    }
}

// The disjunction of two clauses.
fn both(a: Clause, b: Clause) -> Clause
    ensures { result ≡ both_of a b }
{
    Clause {
        opposite: a.opposite || b.opposite,
        apart: a.apart && b.apart,
    }
}

// A term that is no disjunction.
fn alone(store: &Store, sight: &Sight, id: Id) -> Clause
    requires scene { IsScene store.now sight.now }
    requires id { IsEarlier sight.now.walk (length sight.now.walk) id }
    ensures { result ≡ alone_of sight.now.place (tree_at store.now id) }
{
    single(
        is_opposite(store, id, sight.place.level),
        is_apart(sight.look(store, id)),
    )
}

// One disjunct.
fn single(opposite: bool, apart: bool) -> Clause
    ensures { result ≡ single_of opposite apart }
{
    Clause {
        opposite,
        apart: opposite || apart,
    }
}

// Whether neither the place stands in a term nor another one of its block.
fn is_apart(look: Look) -> bool
    ensures { result ≡ looks_apart look }
{
    match look.way {
        Way::Absent => !look.inside,
        _ => false,
    }
}

// Whether a term is the place's negation.
fn is_opposite(store: &Store, id: Id, level: u64) -> bool
    requires { id < length store.now }
    ensures { result ≡ tree_eq (tree_at store.now id) (opposite level) }
{
    match store.node(id) {
        Node::App { op, kids } => negates(store, *op, kids.as_slice(), level),
        _ => false,
    }
}

fn negates(store: &Store, op: Op, kids: &[Id], level: u64) -> bool
    requires { All (λ id. id < length store.now) kids.now }
    ensures { result ≡ tree_eq (Apply op (trees_at store.now kids.now)) (opposite level) }
{
    match op {
        Op::Not => match kids {
            [] => false,
            [a] => is_place(store, *a, level),
            [_, _, ..] => false,
        },
        _ => false,
    }
}

// Whether a term is the place, as a truth value.
fn is_place(store: &Store, id: Id, level: u64) -> bool
    requires { id < length store.now }
    ensures { result ≡ tree_eq (tree_at store.now id) (Variable level BoolSort) }
{
    match store.node(id) {
        Node::Var { level: own, sort } => *own == level && is_bool(*sort),
        _ => false,
    }
}

fn is_bool(sort: Sort) -> bool
    ensures { result ≡ sort_eq sort BoolSort }
{
    match sort {
        Sort::Bool => true,
        Sort::Bits(_) => false,
    }
}
