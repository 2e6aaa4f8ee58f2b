//! What a side of an equation or a comparison is to be.

ghost use Rattle.std.specs.Prelude.{◌≡◌, ◌<◌, ◌≤◌, [], ◌∷◌, IfOk};
ghost use Rattle.qv_words.specs.Sort.{IsLawful, IsValueOf};
ghost use Rattle.qv_words.specs.Word.{word_sort, word_value};
ghost use Rattle.qv_words.specs.Tree.{Variable, Literal, Apply};
ghost use Rattle.qv_words.specs.Prenex.{binary};
ghost use Rattle.qv_terms.specs.View.{tree, trees};
ghost use Rattle.qv_choose_candidates.specs.Targets.{greatest, target_tree, has_other, of_comparison};
ghost use Rattle.qv_choose_candidates.specs.Targets.{targets_of};

use crate::offers::Target;
use qv_terms::{NoMemory, Term};
use qv_words::{Op, Sort, Word, apply};
use std::alloc::Global;

// The targets of an operator between two sides, in order.
pub(crate) fn targets_of(op: Op) -> &'static [Target]
    ensures { result.now ≡ targets_of op }
{
    match op {
        Op::Equal => &[Target::Same],
        Op::BvUlt
        | Op::BvUle
        | Op::BvUgt
        | Op::BvUge
        | Op::BvSlt
        | Op::BvSle
        | Op::BvSgt
        | Op::BvSge => &[
            Target::Less,
            Target::More,
            Target::Same,
            Target::Least,
            Target::Greatest,
        ],
        _ => &[],
    }
}

// Whether the other side stands in the target.
pub(crate) fn has_other(target: Target) -> bool
    ensures { result ≡ has_other target }
{
    match target {
        Target::Less | Target::More | Target::Same => true,
        Target::Least | Target::Greatest => false,
    }
}

/// The target as a row over the other side, which has this sort: the variable of level 0.
pub fn target_row(alloc: Global, target: Target, sort: Sort) -> Result<Term, NoMemory>
    requires { IsLawful sort }
    ensures { IfOk result (λ row. tree row ≡ target_tree target sort (Variable 0 sort)) }
{
    let other = Term::Var { level: 0, sort };
    match target {
        Target::Less => beside_one(alloc, Op::BvSub, other, sort),
        Target::More => beside_one(alloc, Op::BvAdd, other, sort),
        Target::Same => Ok(other),
        Target::Least => Ok(Term::Lit {
            word: word_of(sort, 0),
        }),
        Target::Greatest => Ok(Term::Lit {
            word: greatest(sort),
        }),
    }
}

// An operator's application to a term and 1.
fn beside_one(alloc: Global, op: Op, other: Term, sort: Sort) -> Result<Term, NoMemory>
    requires { IsLawful sort }
    ensures { IfOk result (λ term. tree term ≡ binary op (tree other) (Literal sort 1)) }
{
    let one = Term::Lit {
        word: word_of(sort, 1),
    };
    Ok(application(op, vec![in alloc; other, one]?))
}

// An operator's application.
fn application(op: Op, kids: Vec<Term>) -> Term
    ensures { tree result ≡ Apply op (trees kids.items) }
{
    Term::App { op, kids }
}

// The word of the greatest value.
fn greatest(sort: Sort) -> Word
    requires { IsLawful sort }
    ensures sort { word_sort result ≡ sort }
    ensures value { word_value result ≡ greatest sort }
{
    match sort {
        Sort::Bits(_) => apply(Op::BvNot, &[word_of(sort, 0)]),
        Sort::Bool => Word::truth(true),
    }
}

// The word of a value that each sort has.
fn word_of(sort: Sort, value: u128) -> Word
    requires lawful { IsLawful sort }
    requires small { value < 2 }
    ensures sort { word_sort result ≡ sort }
    ensures value { word_value result ≡ value }
{
    match Word::new(sort, value) {
        Some(word) => word,
        None => unreachable!(),
    }
}
