//! Each term of a walk behind small rules.

ghost use Rattle.std.specs.Prelude.{◌≡◌, ◌<◌, ◌≤◌, Some, All, IfOk, length, option_and_then};
ghost use Rattle.std.specs.List.{AllZip};
ghost use Rattle.qv_words.specs.Tree.{Apply, Cons, Nil, IsQuantifierFree};
ghost use Rattle.qv_words.specs.Sorted.{IsSorted};
ghost use Rattle.qv_words.specs.declared.op.Op.TheVariants.{Not};
ghost use Rattle.qv_words.specs.Passes.{under_both};
ghost use Rattle.qv_rewrite_passes.specs.Xors.{sort_in};
ghost use Rattle.qv_rewrite_passes.specs.Simps.{value_of, by_first, by_second, by_table};
ghost use Rattle.qv_rewrite_passes.specs.Simps.{small_two, chosen, choice_by};
ghost use Rattle.qv_rewrite_passes.specs.Simps.{simp_node, simped};
ghost use Rattle.qv_store.specs.Nodes.{tree_at, trees_at};
ghost use Rattle.qv_store.specs.Stores.{AreShared, Grows, StandsAt};
ghost use Rattle.qv_store.specs.Walks.{IsWalk, IsEarlier, IsFound};
ghost use Rattle.qv_rewrite_simps.specs.Held.{numbers_of, trees_of_args, AreArgsBelow};
ghost use Rattle.qv_rewrite_simps.specs.Held.{Choice, Picks, AreFree, AreSimped, IsNext};

use crate::args::{Args, Picked};
use crate::putting::{put_application, put_complement, put_picked};
use crate::tables::{by_first, by_second, of_one, of_opposites, of_twins};
use crate::testing::{are_opposite, are_same, is_truth, sort_of, under, value_of};
use qv_rewrite_passes::Outcome;
use qv_store::{Id, NoMemory, Node, Store, Walk};
use qv_words::{Op, Sort};
use std::alloc::Global;

/// What the pass of small rules makes of a term without quantifiers: each application below it, from
/// the leaves up, is rewritten once. In time nearly proportional to the number of distinct terms
/// below. Also where memory runs out the store keeps what was put.
pub fn simp(alloc: Global, store: &mut Store, id: Id) -> Result<Id, NoMemory>
    requires id { id < length store.old }
    requires free { IsQuantifierFree (tree_at store.old id) }
    ensures id { IfOk result (λ made. StandsAt store.new made (simped (tree_at store.old id))) }
    ensures grows { Grows store.old store.new }
{
    let mut walk = Walk::new(alloc);
    walk.visit(store, id)?;
    let made = simp_each(alloc, store, &walk)?;
    Ok(found(store, &walk, &made, id))
}

// What it makes of the terms of a walk, in their order.
fn simp_each(alloc: Global, store: &mut Store, walk: &Walk) -> Result<Vec<Id>, NoMemory>
    requires walk { IsWalk store.old walk.now }
    requires free { AreFree store.old walk.now }
    ensures made { IfOk result (λ made.
        AreSimped store.new (tree_at store.old) walk.now made.items) }
    ensures many { IfOk result (λ made. length made.items ≡ length walk.now) }
    ensures grows { Grows store.old store.new }
{
    let mut made = Vec::new(alloc);
    'terms: for id in walk.ids() {
        let next = simp_next(alloc, store, walk, &made, *id)?;
        made.push(next)?;
    }
    Ok(made)
}

// What it makes of the next term of a walk, from what it made of those before.
fn simp_next(
    alloc: Global,
    store: &mut Store,
    walk: &Walk,
    made: &[Id],
    id: Id,
) -> Result<Id, NoMemory>
    requires id { id < length store.old }
    requires free { IsQuantifierFree (tree_at store.old id) }
    requires next { IsNext store.old walk.now made.now id }
    ensures id { IfOk result (λ made. StandsAt store.new made (simped (tree_at store.old id))) }
    ensures grows { Grows store.old store.new }
{
    match store.node(id) {
        Node::App { op, kids } => {
            let op = *op;
            let args = args_of(walk, made, kids.as_slice());
            node(alloc, store, op, args)
        }
        _ => Ok(id),
    }
}

// What was made of an application's arguments.
fn args_of(walk: &Walk, made: &[Id], kids: &[Id]) -> Args
    requires some { 1 ≤ length kids.now }
    requires few { length kids.now ≤ 3 }
    requires kids { All (IsEarlier walk.now (length made.now)) kids.now }
    ensures { AllZip (IsFound walk.now made.now) kids.now (numbers_of result) }
{
    match kids {
        [a] => Args::One(*walk.result_of(made, *a)),
        [a, b] => Args::Two(*walk.result_of(made, *a), *walk.result_of(made, *b)),
        [a, b, c] => Args::Three(
            *walk.result_of(made, *a),
            *walk.result_of(made, *b),
            *walk.result_of(made, *c),
        ),
        _ => unreachable!(),
    }
}

// What was made of a term.
fn found(store: &Store, walk: &Walk, made: &[Id], id: Id) -> Id
    requires made { AreSimped store.now (tree_at store.now) walk.now made.now }
    requires id { IsEarlier walk.now (length made.now) id }
    ensures { StandsAt store.now result (simped (tree_at store.now id)) }
{
    let _terms = store;
    *walk.result_of(made, id)
}

// An application by a small rule.
fn node(alloc: Global, store: &mut Store, op: Op, args: Args) -> Result<Id, NoMemory>
    requires args { AreArgsBelow (length store.old) args }
    requires sorted { IsSorted (Apply op (trees_of_args store.old args)) }
    requires free { IsQuantifierFree (Apply op (trees_of_args store.old args)) }
    ensures id { IfOk result (λ id. StandsAt store.new id
        (simp_node op (trees_of_args store.old args))) }
    ensures grows { Grows store.old store.new }
{
    match args {
        Args::One(a) => node_of_one(alloc, store, op, a),
        Args::Two(a, b) => node_of_two(alloc, store, op, a, b),
        Args::Three(c, a, b) => match op {
            Op::Ite => choice(alloc, store, c, a, b),
            _ => put_application(alloc, store, op, &[c, a, b]),
        },
    }
}

fn node_of_one(alloc: Global, store: &mut Store, op: Op, a: Id) -> Result<Id, NoMemory>
    requires a { a < length store.old }
    requires sorted { IsSorted (Apply op (Cons (tree_at store.old a) Nil)) }
    requires free { IsQuantifierFree (Apply op (Cons (tree_at store.old a) Nil)) }
    ensures id { IfOk result (λ id. StandsAt store.new id
        (simp_node op (Cons (tree_at store.old a) Nil))) }
    ensures grows { Grows store.old store.new }
{
    let sort = sort_of(store, a);
    match picked(store, a, of_one(op, sort)) {
        Some(made) => put_picked(alloc, store, made),
        None => put_application(alloc, store, op, &[a]),
    }
}

fn node_of_two(alloc: Global, store: &mut Store, op: Op, a: Id, b: Id) -> Result<Id, NoMemory>
    requires a { a < length store.old }
    requires b { b < length store.old }
    requires sorted { IsSorted (Apply op
        (Cons (tree_at store.old a) (Cons (tree_at store.old b) Nil))) }
    requires free { IsQuantifierFree (Apply op
        (Cons (tree_at store.old a) (Cons (tree_at store.old b) Nil))) }
    ensures id { IfOk result (λ id. StandsAt store.new id
        (simp_node op (Cons (tree_at store.old a) (Cons (tree_at store.old b) Nil)))) }
    ensures grows { Grows store.old store.new }
{
    match pick_of_two(store, op, a, b) {
        Some(made) => put_picked(alloc, store, made),
        None => put_application(alloc, store, op, &[a, b]),
    }
}

// What the tables make of an operator's application to two terms.
fn pick_of_two(store: &Store, op: Op, a: Id, b: Id) -> Option<Picked>
    requires a { a < length store.now }
    requires b { b < length store.now }
    ensures { Picks store.now result
        (small_two op (tree_at store.now a) (tree_at store.now b)) }
{
    let sort = sort_of(store, a);
    if are_same(store, a, b) {
        return picked(store, a, of_twins(op, sort));
    }
    if are_opposite(store, a, b) {
        return picked(store, a, of_opposites(op, sort));
    }
    let made = picked(store, a, beside_second(store, op, a, b));
    if made.is_some() {
        return made;
    }
    picked(store, b, beside_first(store, op, a, b))
}

// What the tables make of the first of two terms, where the second is a literal.
fn beside_second(store: &Store, op: Op, a: Id, b: Id) -> Option<Outcome>
    requires a { a < length store.now }
    requires b { b < length store.now }
    ensures { result ≡ option_and_then (by_second op (sort_in (tree_at store.now a)))
        (value_of (tree_at store.now b)) }
{
    let sort = sort_of(store, a);
    match value_of(store, b) {
        Some(value) => by_second(op, sort, value),
        None => None,
    }
}

// What they make of the second, where the first is one.
fn beside_first(store: &Store, op: Op, a: Id, b: Id) -> Option<Outcome>
    requires a { a < length store.now }
    requires b { b < length store.now }
    ensures { result ≡ option_and_then (by_first op (sort_in (tree_at store.now b)))
        (value_of (tree_at store.now a)) }
{
    let sort = sort_of(store, b);
    match value_of(store, a) {
        Some(value) => by_first(op, sort, value),
        None => None,
    }
}

// What a table makes of a term.
fn picked(store: &Store, id: Id, found: Option<Outcome>) -> Option<Picked>
    requires { id < length store.now }
    ensures { Picks store.now result (by_table (tree_at store.now id) found) }
{
    let _terms = store;
    match found {
        Some(outcome) => Some(Picked { id, outcome }),
        None => None,
    }
}

// A choice: by a negation it is the other choice by what is negated.
fn choice(alloc: Global, store: &mut Store, c: Id, a: Id, b: Id) -> Result<Id, NoMemory>
    requires c { c < length store.old }
    requires a { a < length store.old }
    requires b { b < length store.old }
    requires sorted { IsSorted (Choice (tree_at store.old c) (tree_at store.old a)
        (tree_at store.old b)) }
    requires free { IsQuantifierFree (Choice (tree_at store.old c) (tree_at store.old a)
        (tree_at store.old b)) }
    ensures id { IfOk result (λ id. StandsAt store.new id (choice_by
        (under_both Not (tree_at store.old c))
        (tree_at store.old c) (tree_at store.old a) (tree_at store.old b))) }
    ensures grows { Grows store.old store.new }
{
    match under(store, Op::Not, c) {
        Some(d) => chosen(alloc, store, d, b, a),
        None => chosen(alloc, store, c, a, b),
    }
}

// A choice by what is no negation.
fn chosen(alloc: Global, store: &mut Store, c: Id, a: Id, b: Id) -> Result<Id, NoMemory>
    requires c { c < length store.old }
    requires a { a < length store.old }
    requires b { b < length store.old }
    requires sorted { IsSorted (Choice (tree_at store.old c) (tree_at store.old a)
        (tree_at store.old b)) }
    ensures id { IfOk result (λ id. StandsAt store.new id (chosen
        (tree_at store.old c) (tree_at store.old a) (tree_at store.old b))) }
    ensures grows { Grows store.old store.new }
{
    let _terms = store.len();
    if is_truth(store, c, 1) || are_same(store, a, b) {
        return Ok(a);
    }
    if is_truth(store, c, 0) {
        return Ok(b);
    }
    if is_truth(store, a, 1) && is_truth(store, b, 0) {
        return Ok(c);
    }
    if is_truth(store, a, 0) && is_truth(store, b, 1) {
        return put_complement(alloc, store, Sort::Bool, c);
    }
    put_application(alloc, store, Op::Ite, &[c, a, b])
}
