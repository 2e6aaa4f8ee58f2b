//! The sort of a term, by the ranks of its operators.

ghost use Rattle.std.specs.Prelude.{◌≡◌, IfOk, OnErr};
ghost use Rattle.qv_words.specs.Tree.{tree_sort, Apply};
ghost use Rattle.qv_terms.specs.View.{tree, trees};

use crate::term::Term;
use qv_words::{Op, Sort, result_sort};

/// An application has no rank, or a quantifier's body isn't Bool.
#[derive(Clone, Copy, Debug, PartialEq, Eq)]
pub struct SortFault;

// No operator takes more arguments.
const MOST_ARGUMENTS: usize = 3;

/// The sort of a term.
#[cycle(sort)]
pub fn sort_of(term: &Term) -> Result<Sort, SortFault>
    ensures sort { IfOk result (λ sort. tree_sort (tree term.now) ≡ Some sort) }
    ensures fault { OnErr result (tree_sort (tree term.now) ≡ None) }
{
    match term {
        Term::Const { sort, .. } | Term::Var { sort, .. } => Ok(*sort),
        Term::Lit { word } => Ok(word.sort()),
        Term::App { op, kids } => application_sort(*op, kids),
        Term::All { body, .. } | Term::Ex { body, .. } => match sort_of(body)? {
            Sort::Bool => Ok(Sort::Bool),
            Sort::Bits(_) => Err(SortFault),
        },
    }
}

// The sort of an application to these arguments.
#[cycle(sort)]
fn application_sort(op: Op, args: &[Term]) -> Result<Sort, SortFault>
    ensures sort { IfOk result (λ sort. tree_sort (Apply op (trees args.now)) ≡ Some sort) }
    ensures fault { OnErr result (tree_sort (Apply op (trees args.now)) ≡ None) }
{
    if args.len() > MOST_ARGUMENTS {
        return Err(SortFault);
    }
    let mut sorts = [Sort::Bool; MOST_ARGUMENTS];
    for i in 0..args.len() {
        sorts[i] = sort_of(&args[i])?;
    }
    result_sort(op, &sorts[..args.len()]).ok_or(SortFault)
}
