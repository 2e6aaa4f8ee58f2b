//! The rules of passes, each at one application to terms of a store.

ghost use Rattle.std.specs.Prelude.{◌≡◌, ◌<◌, All, IsSome, length, option_map};
ghost use Rattle.qv_words.specs.declared.rule.Rule.TheVariants.{
  Fold,
  Same,
  NotNot,
  Unit as UnitRule,
  Absorb,
  IteKnown,
  IteSame,
  AddZero,
  MulOne,
  MulZero,
};
ghost use Rattle.qv_words.specs.Word.{sorts_of, values_of};
ghost use Rattle.qv_words.specs.Rank.{result_sort};
ghost use Rattle.qv_words.specs.Tree.{Apply, Nil, Cons, tree_sort};
ghost use Rattle.qv_words.specs.Equality.{op_eq, tree_eq};
ghost use Rattle.qv_words.specs.Passes.{
  is_literal,
  literals_of,
  fold_literals,
  under_both,
  beside,
  among_two,
  rewritten,
};
ghost use Rattle.qv_store.specs.Nodes.{tree_at, trees_at};
ghost use Rattle.qv_store.specs.Stores.{AreShared};
ghost use Rattle.qv_rewrite.specs.Made.{
  trees_of_args,
  AreArgsBelow,
  literal_of,
  as_literal,
  IsNegation,
  Makes,
};

use crate::args::{Args, Made};
use qv_store::{Id, Node, Store};
use qv_words::{Op, Rule, Word, apply};

// What the rule makes of an operator's application, where it fits.
pub(crate) fn rewritten(store: &Store, rule: Rule, op: Op, args: Args) -> Option<Made>
    requires args { AreArgsBelow (length store.now) args }
    requires rank { IsSome (tree_sort (Apply op (trees_of_args store.now args))) }
    requires shared { AreShared store.now }
    ensures { Makes store.now result (rewritten rule op (trees_of_args store.now args)) }
{
    match rule {
        Rule::Fold => fold(store, op, args),
        Rule::Same => same(store, op, args),
        Rule::NotNot => not_not(store, op, args),
        Rule::Unit => unit(store, op, args),
        Rule::Absorb => absorb(store, op, args),
        Rule::IteKnown => ite_known(store, op, args),
        Rule::IteSame => ite_same(store, op, args),
        Rule::AddZero => add_zero(store, op, args),
        Rule::MulOne => mul_one(store, op, args),
        Rule::MulZero => mul_zero(store, op, args),
    }
}

// An application of literals alone is the literal of its value.
fn fold(store: &Store, op: Op, args: Args) -> Option<Made>
    requires args { AreArgsBelow (length store.now) args }
    requires rank { IsSome (tree_sort (Apply op (trees_of_args store.now args))) }
    ensures { Makes store.now result (rewritten Fold op (trees_of_args store.now args)) }
{
    match args {
        Args::One(a) => fold_one(store, op, a),
        Args::Two(a, b) => fold_two(store, op, a, b),
        Args::Three(a, b, c) => fold_three(store, op, a, b, c),
    }
}

fn fold_one(store: &Store, op: Op, a: Id) -> Option<Made>
    requires first { a < length store.now }
    requires rank { IsSome (tree_sort (Apply op (Cons (tree_at store.now a) Nil))) }
    ensures { Makes store.now result (fold_literals op
        (literals_of (Cons (tree_at store.now a) Nil))) }
{
    let a = literal(store, a)?;
    Some(Made::Value(apply(op, &[a])))
}

fn fold_two(store: &Store, op: Op, a: Id, b: Id) -> Option<Made>
    requires first { a < length store.now }
    requires second { b < length store.now }
    requires rank { IsSome (tree_sort (Apply op
        (Cons (tree_at store.now a) (Cons (tree_at store.now b) Nil)))) }
    ensures { Makes store.now result (fold_literals op
        (literals_of (Cons (tree_at store.now a) (Cons (tree_at store.now b) Nil)))) }
{
    let a = literal(store, a)?;
    let b = literal(store, b)?;
    Some(Made::Value(apply(op, &[a, b])))
}

fn fold_three(store: &Store, op: Op, a: Id, b: Id, c: Id) -> Option<Made>
    requires first { a < length store.now }
    requires second { b < length store.now }
    requires third { c < length store.now }
    requires rank { IsSome (tree_sort (Apply op (Cons (tree_at store.now a)
        (Cons (tree_at store.now b) (Cons (tree_at store.now c) Nil))))) }
    ensures { Makes store.now result (fold_literals op (literals_of (Cons (tree_at store.now a)
        (Cons (tree_at store.now b) (Cons (tree_at store.now c) Nil))))) }
{
    let a = literal(store, a)?;
    let b = literal(store, b)?;
    let c = literal(store, c)?;
    Some(Made::Value(apply(op, &[a, b, c])))
}

// An equation of a term with itself is true.
fn same(store: &Store, op: Op, args: Args) -> Option<Made>
    requires args { AreArgsBelow (length store.now) args }
    requires shared { AreShared store.now }
    ensures { Makes store.now result (rewritten Same op (trees_of_args store.now args)) }
{
    match op {
        Op::Equal => match args {
            Args::Two(a, b) => {
                if are_same(store, a, b) {
                    Some(Made::Value(Word::truth(true)))
                } else {
                    None
                }
            }
            _ => None,
        },
        _ => None,
    }
}

// Two negations of one kind are the term below them.
fn not_not(store: &Store, op: Op, args: Args) -> Option<Made>
    requires { AreArgsBelow (length store.now) args }
    ensures { Makes store.now result (rewritten NotNot op (trees_of_args store.now args)) }
{
    match op {
        Op::Not | Op::BvNot | Op::BvNeg => match args {
            Args::One(a) => under(store, op, a),
            _ => None,
        },
        _ => None,
    }
}

// `and` with `true` and `or` with `false` are the other argument.
fn unit(store: &Store, op: Op, args: Args) -> Option<Made>
    requires { AreArgsBelow (length store.now) args }
    ensures { Makes store.now result (rewritten UnitRule op (trees_of_args store.now args)) }
{
    match op {
        Op::And => match args {
            Args::Two(a, b) => beside(store, 1, a, b),
            _ => None,
        },
        Op::Or => match args {
            Args::Two(a, b) => beside(store, 0, a, b),
            _ => None,
        },
        _ => None,
    }
}

// `and` with `false` and `or` with `true` are that argument.
fn absorb(store: &Store, op: Op, args: Args) -> Option<Made>
    requires { AreArgsBelow (length store.now) args }
    ensures { Makes store.now result (rewritten Absorb op (trees_of_args store.now args)) }
{
    match op {
        Op::And => match args {
            Args::Two(a, b) => among(store, 0, a, b),
            _ => None,
        },
        Op::Or => match args {
            Args::Two(a, b) => among(store, 1, a, b),
            _ => None,
        },
        _ => None,
    }
}

// A choice by a literal is the branch that it takes.
fn ite_known(store: &Store, op: Op, args: Args) -> Option<Made>
    requires { AreArgsBelow (length store.now) args }
    ensures { Makes store.now result (rewritten IteKnown op (trees_of_args store.now args)) }
{
    match op {
        Op::Ite => match args {
            Args::Three(c, a, b) => {
                if is_literal(store, c, 1) {
                    Some(Made::Term(a))
                } else if is_literal(store, c, 0) {
                    Some(Made::Term(b))
                } else {
                    None
                }
            }
            _ => None,
        },
        _ => None,
    }
}

// A choice between a term and itself is that term.
fn ite_same(store: &Store, op: Op, args: Args) -> Option<Made>
    requires args { AreArgsBelow (length store.now) args }
    requires shared { AreShared store.now }
    ensures { Makes store.now result (rewritten IteSame op (trees_of_args store.now args)) }
{
    match op {
        Op::Ite => match args {
            Args::Three(_, a, b) => {
                if are_same(store, a, b) {
                    Some(Made::Term(a))
                } else {
                    None
                }
            }
            _ => None,
        },
        _ => None,
    }
}

// A sum with 0 is the other argument, and so is what 0 is taken from.
fn add_zero(store: &Store, op: Op, args: Args) -> Option<Made>
    requires { AreArgsBelow (length store.now) args }
    ensures { Makes store.now result (rewritten AddZero op (trees_of_args store.now args)) }
{
    match op {
        Op::BvAdd => match args {
            Args::Two(a, b) => beside(store, 0, a, b),
            _ => None,
        },
        Op::BvSub => match args {
            Args::Two(a, b) if is_literal(store, b, 0) => Some(Made::Term(a)),
            _ => None,
        },
        _ => None,
    }
}

// A product with 1 is the other argument.
fn mul_one(store: &Store, op: Op, args: Args) -> Option<Made>
    requires { AreArgsBelow (length store.now) args }
    ensures { Makes store.now result (rewritten MulOne op (trees_of_args store.now args)) }
{
    match op {
        Op::BvMul => match args {
            Args::Two(a, b) => beside(store, 1, a, b),
            _ => None,
        },
        _ => None,
    }
}

// A product with 0 is 0.
fn mul_zero(store: &Store, op: Op, args: Args) -> Option<Made>
    requires { AreArgsBelow (length store.now) args }
    ensures { Makes store.now result (rewritten MulZero op (trees_of_args store.now args)) }
{
    match op {
        Op::BvMul => match args {
            Args::Two(a, b) => among(store, 0, a, b),
            _ => None,
        },
        _ => None,
    }
}

// A term's word where it is a literal.
fn literal(store: &Store, id: Id) -> Option<Word>
    requires { id < length store.now }
    ensures { option_map literal_of result ≡ as_literal (tree_at store.now id) }
{
    match store.node(id) {
        Node::Lit { word } => Some(*word),
        _ => None,
    }
}

// Whether a term is the literal of this value.
pub(crate) fn is_literal(store: &Store, id: Id, value: u128) -> bool
    requires { id < length store.now }
    ensures { result ≡ is_literal value (tree_at store.now id) }
{
    match store.node(id) {
        Node::Lit { word } => word.value() == value,
        _ => false,
    }
}

// Whether two terms are the same.
pub(crate) fn are_same(store: &Store, a: Id, b: Id) -> bool
    requires first { a < length store.now }
    requires second { b < length store.now }
    requires shared { AreShared store.now }
    ensures { result ≡ tree_eq (tree_at store.now a) (tree_at store.now b) }
{
    let _terms = store;
    a == b
}

// The term below an application of this negation.
fn under(store: &Store, op: Op, id: Id) -> Option<Made>
    requires id { id < length store.now }
    requires negation { IsNegation op }
    ensures { Makes store.now result (under_both op (tree_at store.now id)) }
{
    match store.node(id) {
        Node::App { op: inner, kids } => only_under(store, op, *inner, kids.as_slice()),
        _ => None,
    }
}

// The only argument of an operator, where it is this negation.
fn only_under(store: &Store, op: Op, inner: Op, kids: &[Id]) -> Option<Made>
    requires kids { All (λ kid. kid < length store.now) kids.now }
    requires negation { IsNegation op }
    ensures { Makes store.now result (under_both op (Apply inner (trees_at store.now kids.now))) }
{
    let _terms = store;
    if kids.len() != 1 {
        return None;
    }
    if is_op(op, inner) {
        Some(Made::Term(kids[0]))
    } else {
        None
    }
}

// Whether an operator is this negation.
pub(crate) fn is_op(op: Op, other: Op) -> bool
    requires { IsNegation op }
    ensures { result ≡ op_eq op other }
{
    match op {
        Op::Not => matches!(other, Op::Not),
        Op::BvNot => matches!(other, Op::BvNot),
        Op::BvNeg => matches!(other, Op::BvNeg),
        _ => unreachable!(),
    }
}

// The other of two terms where one is the literal of this value.
fn beside(store: &Store, value: u128, a: Id, b: Id) -> Option<Made>
    requires first { a < length store.now }
    requires second { b < length store.now }
    ensures { Makes store.now result (beside value (tree_at store.now a) (tree_at store.now b)) }
{
    if is_literal(store, a, value) {
        Some(Made::Term(b))
    } else if is_literal(store, b, value) {
        Some(Made::Term(a))
    } else {
        None
    }
}

// The one of two terms that is the literal of this value.
fn among(store: &Store, value: u128, a: Id, b: Id) -> Option<Made>
    requires first { a < length store.now }
    requires second { b < length store.now }
    ensures { Makes store.now result (among_two value (tree_at store.now a) (tree_at store.now b)) }
{
    if is_literal(store, a, value) {
        Some(Made::Term(a))
    } else if is_literal(store, b, value) {
        Some(Made::Term(b))
    } else {
        None
    }
}
