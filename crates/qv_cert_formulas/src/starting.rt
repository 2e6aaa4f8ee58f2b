//! The first list of formulas of a section.

ghost use Rattle.std.specs.Prelude.{◌≡◌, ◌<◌, All, IfOk, IfSome, is_none, length};
ghost use Rattle.qv_words.specs.Tree.{IsQuantifierFree};
ghost use Rattle.qv_store.specs.Nodes.{tree_at};
ghost use Rattle.qv_store.specs.Stores.{Grows};
ghost use Rattle.qv_store.specs.Walks.{named};
ghost use Rattle.qv_store.specs.Problems.{problem_in, IsPosedIn};
ghost use Rattle.qv_cert.specs.Section.{first_list, is_missing};
ghost use Rattle.qv_cert_nodes.specs.Lists.{listed_in, IsListed};
ghost use Rattle.qv_cert_formulas.specs.Starts.{MayStart};

use qv_cert_nodes::{Listed, goal_of, leaves_of};
use qv_store::{Id, NoMemory, Problem, Store};
use qv_words::Answer;
use std::alloc::Global;

/// The formulas that a section of this answer stands for, before any rewriting. There are none
/// where an existential place lacks its term. Also where memory runs out the store keeps what was
/// put.
pub fn first_list(
    alloc: Global,
    answer: Answer,
    listed: &Listed,
    store: &mut Store,
    problem: &Problem,
) -> Result<Option<Vec<Id>>, NoMemory>
    requires kept { IsListed store.old (problem_in store.old problem.now) listed.now }
    requires posed { IsPosedIn store.old problem.now }
    requires may { MayStart (problem_in store.old problem.now) answer
        (listed_in store.old listed.now) }
    ensures missing { IfOk result (λ found. is_none found
        ≡ is_missing (problem_in store.old problem.now) answer (listed_in store.old listed.now)) }
    ensures list { IfOk result (λ found. IfSome found (λ ids. named store.new ids.items
        ≡ first_list (problem_in store.old problem.now) answer (listed_in store.old listed.now))) }
    ensures below { IfOk result (λ found. IfSome found (λ ids.
        All (λ id. id < length store.new) ids.items)) }
    ensures free { IfOk result (λ found. IfSome found (λ ids.
        All (λ id. IsQuantifierFree (tree_at store.new id)) ids.items)) }
    ensures grows { Grows store.old store.new }
{
    match answer {
        Answer::Sat => goal_list(alloc, listed, store, problem),
        Answer::Unsat => Ok(Some(leaves_of(alloc, listed, store, problem)?)),
        Answer::Unknown => {
            let _nodes = store.len();
            Ok(Some(Vec::new(alloc)))
        }
    }
}

// The goal of a sat section, alone in a list.
fn goal_list(
    alloc: Global,
    listed: &Listed,
    store: &mut Store,
    problem: &Problem,
) -> Result<Option<Vec<Id>>, NoMemory>
    requires kept { IsListed store.old (problem_in store.old problem.now) listed.now }
    requires posed { IsPosedIn store.old problem.now }
    requires may { MayStart (problem_in store.old problem.now) Answer.Sat
        (listed_in store.old listed.now) }
    ensures missing { IfOk result (λ found. is_none found
        ≡ is_missing (problem_in store.old problem.now) Answer.Sat
        (listed_in store.old listed.now)) }
    ensures list { IfOk result (λ found. IfSome found (λ ids. named store.new ids.items
        ≡ first_list (problem_in store.old problem.now) Answer.Sat
        (listed_in store.old listed.now))) }
    ensures below { IfOk result (λ found. IfSome found (λ ids.
        All (λ id. id < length store.new) ids.items)) }
    ensures free { IfOk result (λ found. IfSome found (λ ids.
        All (λ id. IsQuantifierFree (tree_at store.new id)) ids.items)) }
    ensures grows { Grows store.old store.new }
{
    match goal_of(alloc, listed, store, problem)? {
        Some(goal) => {
            let mut list = Vec::new(alloc);
            list.push(goal)?;
            Ok(Some(list))
        }
        None => Ok(None),
    }
}
