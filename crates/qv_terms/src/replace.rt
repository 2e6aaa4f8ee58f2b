//! Copies of terms, and terms with others put in for variables.

ghost use Rattle.std.specs.Prelude.{◌≡◌, IfOk, option_map, option_copied};
ghost use Rattle.qv_words.specs.Tree.{IsQuantifierFree, AreQuantifierFree};
ghost use Rattle.qv_words.specs.Replacement.{replaced, replaced_each};
ghost use Rattle.qv_terms.specs.View.{tree, trees, trees_by_level};

use crate::term::Term;
use std::alloc::{AllocError, Global};

/// Memory ran out.
pub type NoMemory = AllocError;

/// A term of its own that is the same tree.
#[cycle(copy)]
pub fn copy(alloc: Global, term: &Term) -> Result<Term, NoMemory>
    ensures { IfOk result (λ copied. tree copied ≡ tree term.now) }
{
    match term {
        Term::Const { index, sort } => Ok(Term::Const {
            index: *index,
            sort: *sort,
        }),
        Term::Var { level, sort } => Ok(Term::Var {
            level: *level,
            sort: *sort,
        }),
        Term::Lit { word } => Ok(Term::Lit { word: *word }),
        Term::App { op, kids } => Ok(Term::App {
            op: *op,
            kids: copy_all(alloc, kids)?,
        }),
        Term::All { level, sort, body } => Ok(Term::All {
            level: *level,
            sort: *sort,
            body: Box::new(alloc, copy(alloc, body)?)?,
        }),
        Term::Ex { level, sort, body } => Ok(Term::Ex {
            level: *level,
            sort: *sort,
            body: Box::new(alloc, copy(alloc, body)?)?,
        }),
    }
}

// The same of a list of terms.
#[cycle(copy)]
fn copy_all(alloc: Global, terms: &[Term]) -> Result<Vec<Term>, NoMemory>
    ensures { IfOk result (λ copied. trees copied.items ≡ trees terms.now) }
{
    let mut copied = Vec::with_capacity(alloc, terms.len())?;
    for term in terms {
        copied.push(copy(alloc, term)?)?;
    }
    Ok(copied)
}

/// A copy of the term in which each variable whose level has a term is replaced by it.
#[cycle(subst)]
pub fn subst(alloc: Global, term: &Term, terms: &[Option<Term>]) -> Result<Term, NoMemory>
    requires { IsQuantifierFree (tree term.now) }
    ensures { IfOk result (λ made. tree made
        ≡ replaced (trees_by_level terms.now) (tree term.now)) }
{
    match term {
        Term::Var { level, sort } => match term_at(terms, *level) {
            Some(put) => copy(alloc, put),
            None => Ok(Term::Var {
                level: *level,
                sort: *sort,
            }),
        },
        Term::App { op, kids } => Ok(Term::App {
            op: *op,
            kids: subst_all(alloc, kids, terms)?,
        }),
        _ => copy(alloc, term),
    }
}

// The same of a list of terms.
#[cycle(subst)]
fn subst_all(alloc: Global, args: &[Term], terms: &[Option<Term>]) -> Result<Vec<Term>, NoMemory>
    requires { AreQuantifierFree (trees args.now) }
    ensures { IfOk result (λ made. trees made.items
        ≡ replaced_each (trees_by_level terms.now) (trees args.now)) }
{
    let mut made = Vec::with_capacity(alloc, args.len())?;
    for arg in args {
        made.push(subst(alloc, arg, terms)?)?;
    }
    Ok(made)
}

// The term of a level, if it has one.
fn term_at(terms: &[Option<Term>], level: u64) -> Option<&Term>
    ensures { trees_by_level terms.now level ≡ option_map tree (option_copied result) }
{
    match terms.get(level as usize) {
        Some(held) => held.as_ref(),
        None => None,
    }
}
