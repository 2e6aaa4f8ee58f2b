//! How many variables prenex forms have. Each visit of a quantifier makes a variable of its own.

ghost use Rattle.std.specs.Prelude.{◌≡◌, ◌+◌, ◌<◌, ◌≤◌, ◌∷◌, All, IfOk, OnOk, Err, length, map};
ghost use Rattle.std.specs.Prelude.{reverse, sum};
ghost use Rattle.qv_store.specs.Nodes.{tree_at};
ghost use Rattle.qv_store.specs.Stores.{Grows};
ghost use Rattle.qv_prenex_laws.specs.FormLaws.{all_lengths};
ghost use Rattle.qv_prenex_matrix.specs.Waiting.{parts_in, variables_of, number_of, work, AreBelow};

use crate::faults::PrenexFault;
use qv_prenex_matrix::{Part, SplitStore, is_bound, push_parts, rule_of, waiting};
use qv_store::{Id, NoMemory};
use std::alloc::Global;

// How many variables the forms of these formulas have together, unless they are more than there is
// room for: then it stops at the first one that is too many.
pub(crate) fn count_variables(
    alloc: Global,
    store: &mut SplitStore,
    formulas: &[Id],
    room: usize,
) -> Result<usize, PrenexFault>
    requires { All (λ id. id < length store.old) formulas.now }
    ensures count { IfOk result (λ n. n
        ≡ sum (all_lengths (map (tree_at store.old) formulas.now))) }
    ensures within { IfOk result (λ n. n ≤ room) }
    ensures over { result ≡ Err PrenexFault.PrefixLimit →
        room < sum (all_lengths (map (tree_at store.old) formulas.now)) }
    ensures grows { Grows store.old store.new }
{
    let mut todo = waiting(alloc, formulas)?;
    let mut left = room;
    'todo: while let Some(part) = todo.pop() {
        if count_next(alloc, store, &mut todo, part)? {
            if left == 0 {
                return Err(PrenexFault::PrefixLimit);
            }
            left -= 1;
        }
    }
    Ok(room - left)
}

// The next part makes way for what it is made of. Whether it has a variable at its top.
fn count_next(
    alloc: Global,
    store: &mut SplitStore,
    todo: &mut Vec<Part>,
    part: Part,
) -> Result<bool, NoMemory>
    requires { AreBelow (length store.old) (part ∷ reverse todo.old.items) }
    ensures below { OnOk result (AreBelow (length store.new) (reverse todo.new.items)) }
    ensures count { IfOk result (λ one. variables_of
        (parts_in store.old (part ∷ reverse todo.old.items))
        ≡ number_of one + variables_of (parts_in store.new (reverse todo.new.items))) }
    ensures fewer { OnOk result (work (parts_in store.new (reverse todo.new.items))
        < work (parts_in store.old (part ∷ reverse todo.old.items))) }
    ensures grows { Grows store.old store.new }
{
    let plus = part.plus;
    let rule = rule_of(alloc, store, part)?;
    push_parts(todo, plus, &rule)?;
    Ok(is_bound(&rule))
}
