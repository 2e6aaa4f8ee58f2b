//! Whether the first block of a prenex form is empty.

ghost use Rattle.std.specs.Prelude.{◌≡◌, ◌<◌, ◌∷◌, ◌&&◌, not, IfOk, OnOk, length, reverse};
ghost use Rattle.qv_store.specs.Nodes.{tree_at};
ghost use Rattle.qv_store.specs.Stores.{Grows};
ghost use Rattle.qv_prenex_laws.specs.FormLaws.{lengths_under};
ghost use Rattle.qv_prenex_laws.specs.MatrixLaws.{starts_empty};
ghost use Rattle.qv_prenex_matrix.specs.Rules.{binds_existential};
ghost use Rattle.qv_prenex_matrix.specs.Waiting.{parts_in, all_start_empty, work, AreBelow};

use crate::parts::push_parts;
use crate::rules::{Part, Rule, is_bound, rule_of};
use qv_prenex_splits::SplitStore;
use qv_store::NoMemory;
use std::alloc::Global;

/// Whether no existential variable stands first in the form of a part: it looks for one above all
/// other quantifiers.
pub fn starts_empty(alloc: Global, store: &mut SplitStore, part: Part) -> Result<bool, NoMemory>
    requires { part.term < length store.old }
    ensures empty { IfOk result (λ empty. empty
        ≡ starts_empty (lengths_under part.plus (tree_at store.old part.term))) }
    ensures grows { Grows store.old store.new }
{
    let mut todo = Vec::new(alloc);
    todo.push(part)?;
    'todo: while let Some(next) = todo.pop() {
        if is_existential(alloc, store, &mut todo, next)? {
            return Ok(false);
        }
    }
    Ok(true)
}

// Whether the next part has an existential quantifier at its top. If it has no quantifier there, it
// makes way for what it is made of.
fn is_existential(
    alloc: Global,
    store: &mut SplitStore,
    todo: &mut Vec<Part>,
    part: Part,
) -> Result<bool, NoMemory>
    requires { AreBelow (length store.old) (part ∷ reverse todo.old.items) }
    ensures below { OnOk result (AreBelow (length store.new) (reverse todo.new.items)) }
    ensures empty { IfOk result (λ found. all_start_empty
        (parts_in store.old (part ∷ reverse todo.old.items))
        ≡ (not found && all_start_empty (parts_in store.new (reverse todo.new.items)))) }
    ensures fewer { OnOk result (work (parts_in store.new (reverse todo.new.items))
        < work (parts_in store.old (part ∷ reverse todo.old.items))) }
    ensures grows { Grows store.old store.new }
{
    let plus = part.plus;
    let rule = rule_of(alloc, store, part)?;
    if is_bound(&rule) {
        return Ok(binds_existential(&rule));
    }
    push_parts(todo, plus, &rule)?;
    Ok(false)
}

// Whether an existential quantifier stands at the top.
fn binds_existential(rule: &Rule) -> bool
    ensures { result ≡ binds_existential rule.now }
{
    matches!(
        rule,
        Rule::Bound {
            existential: true,
            ..
        }
    )
}
