//! Terms over the other argument and the target.

ghost use Rattle.std.specs.Prelude.{◌≡◌, ◌≤◌, ◌<◌, ◌^◌, IfOk};
ghost use Rattle.qv_words.specs.Inverse.{unary, number, other_term, target_term};
ghost use Rattle.qv_words.specs.Prenex.{binary, ite};
ghost use Rattle.qv_words.specs.Tree.{Apply};
ghost use Rattle.qv_terms.specs.View.{tree, trees};

use qv_terms::{NoMemory, Term};
use qv_words::{Op, Sort, Word};
use std::alloc::Global;

// The sorts of the other argument, which is the variable of level 0, and of the target, which is
// that of level 1.
#[derive(Clone, Copy)]
pub(crate) struct Leaves {
    pub(crate) other: Sort,
    pub(crate) target: Sort,
}

impl Leaves {
    pub(crate) fn other(&self) -> Term
        ensures { tree result ≡ other_term self.now.other }
    {
        Term::Var {
            level: 0,
            sort: self.other,
        }
    }

    pub(crate) fn target(&self) -> Term
        ensures { tree result ≡ target_term self.now.target }
    {
        Term::Var {
            level: 1,
            sort: self.target,
        }
    }
}

// The literal of a number.
pub(crate) fn number(width: u8, value: u128) -> Term
    requires low { 1 ≤ width }
    requires high { width ≤ 128 }
    requires fits { value < 2 ^ width }
    ensures { tree result ≡ number width value }
{
    match Word::new(Sort::Bits(width), value) {
        Some(word) => Term::Lit { word },
        None => unreachable!(),
    }
}

// The literal of a number of bits, of which a value of this width has at least so many.
pub(crate) fn amount(width: u8, bits: u8) -> Term
    requires low { 1 ≤ width }
    requires high { width ≤ 128 }
    requires few { bits ≤ width }
    ensures { tree result ≡ number width bits }
{
    number(width, u128::from(bits))
}

// An operator's application.
fn application(op: Op, kids: Vec<Term>) -> Term
    ensures { tree result ≡ Apply op (trees kids.items) }
{
    Term::App { op, kids }
}

// An operator of one argument.
pub(crate) fn app1(alloc: Global, op: Op, a: Term) -> Result<Term, NoMemory>
    ensures { IfOk result (λ term. tree term ≡ unary op (tree a)) }
{
    Ok(application(op, vec![in alloc; a]?))
}

// An operator of two.
pub(crate) fn app2(alloc: Global, op: Op, a: Term, b: Term) -> Result<Term, NoMemory>
    ensures { IfOk result (λ term. tree term ≡ binary op (tree a) (tree b)) }
{
    Ok(application(op, vec![in alloc; a, b]?))
}

// The choice between two terms.
pub(crate) fn choice(alloc: Global, c: Term, a: Term, b: Term) -> Result<Term, NoMemory>
    ensures { IfOk result (λ term. tree term ≡ ite (tree c) (tree a) (tree b)) }
{
    Ok(application(Op::Ite, vec![in alloc; c, a, b]?))
}
