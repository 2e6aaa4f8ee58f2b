//! Parts that wait to be gone through: the next one stands last.

ghost use Rattle.std.specs.Prelude.{◌≡◌, ◌++◌, OnOk, IfOk, map, reverse};
ghost use Rattle.qv_prenex_matrix.specs.Rules.{parts_over};
ghost use Rattle.qv_prenex_matrix.specs.Waiting.{under_plus};

use crate::rules::{Part, Rule};
use qv_store::{Id, NoMemory};
use std::alloc::Global;

/// Formulas that are to be gone through in order.
pub fn waiting(alloc: Global, formulas: &[Id]) -> Result<Vec<Part>, NoMemory>
    ensures { IfOk result (λ todo. reverse todo.items ≡ map under_plus formulas.now) }
{
    let mut todo = Vec::with_capacity(alloc, formulas.len())?;
    let mut left = formulas.len();
    'formulas: while left > 0 {
        left -= 1;
        todo.push(Part {
            plus: true,
            term: formulas[left],
        })?;
    }
    Ok(todo)
}

/// The parts that a rule names under this sign, to be gone through next, in order.
pub fn push_parts(todo: &mut Vec<Part>, plus: bool, rule: &Rule) -> Result<(), NoMemory>
    ensures { OnOk result (reverse todo.new.items
        ≡ parts_over plus rule.now ++ reverse todo.old.items) }
{
    match rule {
        Rule::Plain => {}
        Rule::Turned(a) => todo.push(Part {
            plus: !plus,
            term: *a,
        })?,
        Rule::Joined(_, a, b) => {
            todo.push(Part { plus, term: *b })?;
            todo.push(Part { plus, term: *a })?;
        }
        Rule::Crossed(a, b, c, d) => {
            todo.push(*d)?;
            todo.push(*c)?;
            todo.push(*b)?;
            todo.push(*a)?;
        }
        Rule::Bound { body, .. } => todo.push(Part { plus, term: *body })?,
    }
    Ok(())
}
