//! The rules by which terms are simplified besides those of passes, each at one application.

ghost use Rattle.std.specs.Prelude.{◌≡◌, ◌<◌, ◌||◌, All, length};
ghost use Rattle.qv_words.specs.Tree.{Apply, Cons, Nil};
ghost use Rattle.qv_words.specs.Equality.{op_eq};
ghost use Rattle.qv_words.specs.Passes.{is_literal};
ghost use Rattle.qv_store.specs.Nodes.{tree_at, trees_at};
ghost use Rattle.qv_store.specs.Stores.{AreShared};
ghost use Rattle.qv_rewrite.specs.Made.{trees_of_args, AreArgsBelow, Makes};
ghost use Rattle.qv_rewrite.specs.FurtherRules.{zero_of, of_twins, twins, is_greatest};
ghost use Rattle.qv_rewrite.specs.FurtherRules.{past_ends, is_not, opposites, before, behind};
ghost use Rattle.qv_rewrite.specs.FurtherRules.{either_side, added_back, taken_back};
ghost use Rattle.qv_rewrite.specs.FurtherRules.{crossed_back, undone, is_truth, known};
ghost use Rattle.qv_rewrite.specs.FurtherRules.{chosen_truth, IsPairOp};
ghost use Rattle.qv_rewrite.specs.FurtherRules.{further_form, first_further, further};

use crate::args::{Args, Made};
use crate::rules::{are_same, is_literal, is_op};
use qv_store::{Id, Node, Store};
use qv_words::{Op, Sort, Word, apply};

// The rules by which terms are simplified besides those of passes.
#[derive(Clone, Copy)]
pub(crate) enum FurtherRule {
    Twins,
    PastEnds,
    Opposites,
    Undone,
    Known,
    ChosenTruth,
}

// All of them, in the order in which they are tried.
const FURTHER_RULES: [FurtherRule; 6] = [
    FurtherRule::Twins,
    FurtherRule::PastEnds,
    FurtherRule::Opposites,
    FurtherRule::Undone,
    FurtherRule::Known,
    FurtherRule::ChosenTruth,
];

// What the first of the further rules that fits makes of an operator's application.
pub(crate) fn further(store: &Store, op: Op, args: &Args) -> Option<Made>
    requires args { AreArgsBelow (length store.now) args.now }
    requires shared { AreShared store.now }
    ensures { Makes store.now result (further op (trees_of_args store.now args.now)) }
{
    first_further(store, &FURTHER_RULES, op, args)
}

fn first_further(store: &Store, rules: &[FurtherRule], op: Op, args: &Args) -> Option<Made>
    requires args { AreArgsBelow (length store.now) args.now }
    requires shared { AreShared store.now }
    ensures { Makes store.now result
        (first_further rules.now op (trees_of_args store.now args.now)) }
{
    for rule in rules {
        let made = further_form(store, *rule, op, *args);
        if made.is_some() {
            return made;
        }
    }
    None
}

// What the rule makes of an operator's application, where it fits.
fn further_form(store: &Store, rule: FurtherRule, op: Op, args: Args) -> Option<Made>
    requires args { AreArgsBelow (length store.now) args }
    requires shared { AreShared store.now }
    ensures { Makes store.now result (further_form rule op (trees_of_args store.now args)) }
{
    match args {
        Args::One(_) => None,
        Args::Two(a, b) => form_of_two(store, rule, op, a, b),
        Args::Three(c, a, b) => match rule {
            FurtherRule::ChosenTruth => chosen_truth(store, op, c, a, b),
            _ => None,
        },
    }
}

fn form_of_two(store: &Store, rule: FurtherRule, op: Op, a: Id, b: Id) -> Option<Made>
    requires first { a < length store.now }
    requires second { b < length store.now }
    requires shared { AreShared store.now }
    ensures { Makes store.now result (further_form rule op
        (Cons (tree_at store.now a) (Cons (tree_at store.now b) Nil))) }
{
    match rule {
        FurtherRule::Twins => twins(store, op, a, b),
        FurtherRule::PastEnds => past_ends(store, op, a, b),
        FurtherRule::Opposites => opposites(store, op, a, b),
        FurtherRule::Undone => undone(store, op, a, b),
        FurtherRule::Known => known(store, op, a, b),
        FurtherRule::ChosenTruth => None,
    }
}

// What an operator makes of a term and itself.
fn twins(store: &Store, op: Op, a: Id, b: Id) -> Option<Made>
    requires first { a < length store.now }
    requires second { b < length store.now }
    requires shared { AreShared store.now }
    ensures { Makes store.now result (twins op (tree_at store.now a) (tree_at store.now b)) }
{
    if are_same(store, a, b) {
        of_twins(store, op, a)
    } else {
        None
    }
}

fn of_twins(store: &Store, op: Op, id: Id) -> Option<Made>
    requires id { id < length store.now }
    requires shared { AreShared store.now }
    ensures { Makes store.now result (of_twins op (tree_at store.now id)) }
{
    match op {
        Op::And | Op::Or | Op::BvAnd | Op::BvOr => Some(Made::Term(id)),
        Op::BvXor | Op::BvSub => zero_of(store, id),
        Op::Xor | Op::BvUlt | Op::BvUgt | Op::BvSlt | Op::BvSgt => Some(Made::Value(Word::truth(
            false,
        ))),
        Op::Implies | Op::BvUle | Op::BvUge | Op::BvSle | Op::BvSge => Some(Made::Value(Word::truth(
            true,
        ))),
        _ => None,
    }
}

// The literal 0 of a term's sort.
fn zero_of(store: &Store, id: Id) -> Option<Made>
    requires id { id < length store.now }
    requires shared { AreShared store.now }
    ensures { Makes store.now result (zero_of (tree_at store.now id)) }
{
    let sort = store.sort(id);
    Word::new(sort, 0).map(Made::Value)
}

// Comparisons with an end of the range.
fn past_ends(store: &Store, op: Op, a: Id, b: Id) -> Option<Made>
    requires first { a < length store.now }
    requires second { b < length store.now }
    ensures { Makes store.now result (past_ends op (tree_at store.now a) (tree_at store.now b)) }
{
    match op {
        Op::BvUlt if is_last(store, b, a) => Some(Made::Value(Word::truth(false))),
        Op::BvUgt if is_last(store, a, b) => Some(Made::Value(Word::truth(false))),
        Op::BvUle if is_last(store, a, b) => Some(Made::Value(Word::truth(true))),
        Op::BvUge if is_last(store, b, a) => Some(Made::Value(Word::truth(true))),
        _ => None,
    }
}

// Whether one term is the literal 0, or the other the greatest of its width.
fn is_last(store: &Store, low: Id, high: Id) -> bool
    requires first { low < length store.now }
    requires second { high < length store.now }
    ensures { result ≡ (is_literal 0 (tree_at store.now low)
        || is_greatest (tree_at store.now high)) }
{
    is_literal(store, low, 0) || is_greatest(store, high)
}

// Whether a term is the literal of its width's greatest value.
fn is_greatest(store: &Store, id: Id) -> bool
    requires { id < length store.now }
    ensures { result ≡ is_greatest (tree_at store.now id) }
{
    match store.node(id) {
        Node::Lit { word } => match word.sort() {
            Sort::Bits(_) => apply(Op::BvNot, &[*word]).value() == 0,
            Sort::Bool => false,
        },
        _ => false,
    }
}

// A formula and its negation.
fn opposites(store: &Store, op: Op, a: Id, b: Id) -> Option<Made>
    requires first { a < length store.now }
    requires second { b < length store.now }
    requires shared { AreShared store.now }
    ensures { Makes store.now result (opposites op (tree_at store.now a) (tree_at store.now b)) }
{
    match op {
        Op::And if are_opposite(store, a, b) => Some(Made::Value(Word::truth(false))),
        Op::Or if are_opposite(store, a, b) => Some(Made::Value(Word::truth(true))),
        _ => None,
    }
}

// Whether one of two terms is the negation of the other.
fn are_opposite(store: &Store, a: Id, b: Id) -> bool
    requires first { a < length store.now }
    requires second { b < length store.now }
    requires shared { AreShared store.now }
    ensures { result ≡ (is_not (tree_at store.now a) (tree_at store.now b)
        || is_not (tree_at store.now b) (tree_at store.now a)) }
{
    is_not(store, a, b) || is_not(store, b, a)
}

// Whether the second term is the negation of the first.
fn is_not(store: &Store, id: Id, negation: Id) -> bool
    requires first { id < length store.now }
    requires second { negation < length store.now }
    requires shared { AreShared store.now }
    ensures { result ≡ is_not (tree_at store.now id) (tree_at store.now negation) }
{
    match store.node(negation) {
        Node::App { op, kids } => is_not_of(store, id, *op, kids.as_slice()),
        _ => false,
    }
}

fn is_not_of(store: &Store, id: Id, op: Op, kids: &[Id]) -> bool
    requires id { id < length store.now }
    requires kids { All (λ kid. kid < length store.now) kids.now }
    requires shared { AreShared store.now }
    ensures { result ≡ is_not (tree_at store.now id) (Apply op (trees_at store.now kids.now)) }
{
    let _terms = store;
    if kids.len() != 1 {
        return false;
    }
    match kids {
        [kid] => is_op(Op::Not, op) && are_same(store, *kid, id),
        _ => unreachable!(),
    }
}

// What an operator undoes that was done to one of its arguments with the other.
fn undone(store: &Store, op: Op, a: Id, b: Id) -> Option<Made>
    requires first { a < length store.now }
    requires second { b < length store.now }
    requires shared { AreShared store.now }
    ensures { Makes store.now result (undone op (tree_at store.now a) (tree_at store.now b)) }
{
    match op {
        Op::BvAdd => added_back(store, a, b),
        Op::BvSub => taken_back(store, a, b),
        Op::BvXor => crossed_back(store, Op::BvXor, a, b),
        Op::BvXnor => crossed_back(store, Op::BvXnor, a, b),
        _ => None,
    }
}

fn added_back(store: &Store, a: Id, b: Id) -> Option<Made>
    requires first { a < length store.now }
    requires second { b < length store.now }
    requires shared { AreShared store.now }
    ensures { Makes store.now result (added_back (tree_at store.now a) (tree_at store.now b)) }
{
    let made = before(store, Op::BvSub, b, a);
    if made.is_some() {
        return made;
    }
    before(store, Op::BvSub, a, b)
}

fn taken_back(store: &Store, a: Id, b: Id) -> Option<Made>
    requires first { a < length store.now }
    requires second { b < length store.now }
    requires shared { AreShared store.now }
    ensures { Makes store.now result (taken_back (tree_at store.now a) (tree_at store.now b)) }
{
    let made = either_side(store, Op::BvAdd, b, a);
    if made.is_some() {
        return made;
    }
    behind(store, Op::BvSub, a, b)
}

fn crossed_back(store: &Store, op: Op, a: Id, b: Id) -> Option<Made>
    requires first { a < length store.now }
    requires second { b < length store.now }
    requires shared { AreShared store.now }
    requires op { IsPairOp op }
    ensures { Makes store.now result (crossed_back op (tree_at store.now a) (tree_at store.now b)) }
{
    let made = either_side(store, op, b, a);
    if made.is_some() {
        return made;
    }
    either_side(store, op, a, b)
}

// What stands beside a term under this operator.
fn either_side(store: &Store, op: Op, known: Id, id: Id) -> Option<Made>
    requires first { known < length store.now }
    requires second { id < length store.now }
    requires shared { AreShared store.now }
    requires op { IsPairOp op }
    ensures { Makes store.now result
        (either_side op (tree_at store.now known) (tree_at store.now id)) }
{
    let made = before(store, op, known, id);
    if made.is_some() {
        return made;
    }
    behind(store, op, known, id)
}

// What stands before a term under this operator.
fn before(store: &Store, op: Op, known: Id, id: Id) -> Option<Made>
    requires first { known < length store.now }
    requires second { id < length store.now }
    requires shared { AreShared store.now }
    requires op { IsPairOp op }
    ensures { Makes store.now result (before op (tree_at store.now known) (tree_at store.now id)) }
{
    match store.node(id) {
        Node::App { op: inner, kids } => before_in(store, op, known, *inner, kids.as_slice()),
        _ => None,
    }
}

fn before_in(store: &Store, op: Op, known: Id, inner: Op, kids: &[Id]) -> Option<Made>
    requires known { known < length store.now }
    requires kids { All (λ kid. kid < length store.now) kids.now }
    requires shared { AreShared store.now }
    requires op { IsPairOp op }
    ensures { Makes store.now result
        (before op (tree_at store.now known) (Apply inner (trees_at store.now kids.now))) }
{
    let _terms = store;
    if kids.len() != 2 {
        return None;
    }
    match kids {
        [a, b] => {
            if is_pair_op(op, inner) && are_same(store, *b, known) {
                Some(Made::Term(*a))
            } else {
                None
            }
        }
        _ => unreachable!(),
    }
}

// What stands behind a term under this operator.
fn behind(store: &Store, op: Op, known: Id, id: Id) -> Option<Made>
    requires first { known < length store.now }
    requires second { id < length store.now }
    requires shared { AreShared store.now }
    requires op { IsPairOp op }
    ensures { Makes store.now result (behind op (tree_at store.now known) (tree_at store.now id)) }
{
    match store.node(id) {
        Node::App { op: inner, kids } => behind_in(store, op, known, *inner, kids.as_slice()),
        _ => None,
    }
}

fn behind_in(store: &Store, op: Op, known: Id, inner: Op, kids: &[Id]) -> Option<Made>
    requires known { known < length store.now }
    requires kids { All (λ kid. kid < length store.now) kids.now }
    requires shared { AreShared store.now }
    requires op { IsPairOp op }
    ensures { Makes store.now result
        (behind op (tree_at store.now known) (Apply inner (trees_at store.now kids.now))) }
{
    let _terms = store;
    if kids.len() != 2 {
        return None;
    }
    match kids {
        [a, b] => {
            if is_pair_op(op, inner) && are_same(store, *a, known) {
                Some(Made::Term(*b))
            } else {
                None
            }
        }
        _ => unreachable!(),
    }
}

// An equation of a formula with true.
fn known(store: &Store, op: Op, a: Id, b: Id) -> Option<Made>
    requires first { a < length store.now }
    requires second { b < length store.now }
    ensures { Makes store.now result (known op (tree_at store.now a) (tree_at store.now b)) }
{
    match op {
        Op::Equal => {
            if is_truth(store, a, 1) {
                Some(Made::Term(b))
            } else if is_truth(store, b, 1) {
                Some(Made::Term(a))
            } else {
                None
            }
        }
        _ => None,
    }
}

// A choice between true and false.
fn chosen_truth(store: &Store, op: Op, c: Id, a: Id, b: Id) -> Option<Made>
    requires first { c < length store.now }
    requires second { a < length store.now }
    requires third { b < length store.now }
    ensures { Makes store.now result
        (chosen_truth op (tree_at store.now c) (tree_at store.now a) (tree_at store.now b)) }
{
    match op {
        Op::Ite if is_truth(store, a, 1) && is_truth(store, b, 0) => Some(Made::Term(c)),
        _ => None,
    }
}

// Whether a term is the literal of this truth value.
fn is_truth(store: &Store, id: Id, value: u128) -> bool
    requires { id < length store.now }
    ensures { result ≡ is_truth value (tree_at store.now id) }
{
    match store.node(id) {
        Node::Lit { word } => match word.sort() {
            Sort::Bool => word.value() == value,
            Sort::Bits(_) => false,
        },
        _ => false,
    }
}

// Whether an operator is this one.
fn is_pair_op(op: Op, other: Op) -> bool
    requires { IsPairOp op }
    ensures { result ≡ op_eq op other }
{
    match op {
        Op::BvAdd => matches!(other, Op::BvAdd),
        Op::BvSub => matches!(other, Op::BvSub),
        Op::BvXor => matches!(other, Op::BvXor),
        Op::BvXnor => matches!(other, Op::BvXnor),
        _ => unreachable!(),
    }
}
