//! The problems that meters begin a record for, and the clauses of false.

ghost use Rattle.std.specs.Prelude.{◌≡◌, ◌<◌, [], ◌∷◌, IfSome, length};
ghost use Rattle.qv_words.specs.declared.sort.Sort.TheVariants.{Bool as BoolSort};
ghost use Rattle.qv_words.specs.Tree.{Literal, Variable};
ghost use Rattle.qv_words.specs.Problem.{Universal};
ghost use Rattle.qv_cnf.specs.LratLine.{lines_of};
ghost use Rattle.qv_entries.specs.Rows.{row_of};
ghost use Rattle.qv_store.specs.Nodes.{tree_at};
ghost use Rattle.qv_store.specs.Problems.{problem_in};
ghost use Rattle.qv_solve_cases.specs.Lost.{clauses_of_false, lost, undone, wide};

use qv_cnf::{ClauseList, Lit, Step};
use qv_entries::Entry;
use qv_store::{Id, Node, Place, Problem, Quant, Store};
use qv_words::{Sort, Word};
use std::alloc::Global;

/// A problem in a store that has true at a number of its own.
#[derive(Drop)]
pub struct Board {
    pub store: Store,
    pub problem: Problem,
    pub top: Id,
}

// One existential place of a truth value.
fn prefix(alloc: Global) -> Option<Vec<Place>>
    ensures { IfSome result (λ places. places.items
        ≡ record { quant = Quant.Exists; sort = Sort.Bool } ∷ []) }
{
    let mut places = Vec::new(alloc);
    places
        .push(Place {
            quant: Quant::Exists,
            sort: Sort::Bool,
        })
        .ok()?;
    Some(places)
}

/// The problem whose matrix is false.
pub fn lost(alloc: Global) -> Option<Board>
    ensures problem { IfSome result (λ b. problem_in b.store b.problem ≡ lost) }
    ensures matrix { IfSome result (λ b. b.problem.matrix < length b.store) }
    ensures below { IfSome result (λ b. b.top < length b.store) }
    ensures top { IfSome result (λ b. tree_at b.store b.top ≡ Literal BoolSort 1) }
{
    let prefix = prefix(alloc)?;
    let mut store = Store::new(alloc);
    let word = Word::truth(false);
    let matrix = store.put(Node::Lit { word }).ok()?;
    let word = Word::truth(true);
    let top = store.put(Node::Lit { word }).ok()?;
    let constants = Vec::new(alloc);
    Some(Board {
        store,
        problem: Problem {
            prefix,
            constants,
            matrix,
        },
        top,
    })
}

/// The problem whose matrix is the place's value.
pub fn wide(alloc: Global) -> Option<Board>
    ensures problem { IfSome result (λ b. problem_in b.store b.problem ≡ wide) }
    ensures matrix { IfSome result (λ b. b.problem.matrix < length b.store) }
    ensures top { IfSome result (λ b. tree_at b.store b.top ≡ Variable 0 BoolSort) }
{
    let prefix = prefix(alloc)?;
    let mut store = Store::new(alloc);
    let level = 0;
    let sort = Sort::Bool;
    let matrix = store.put(Node::Var { level, sort }).ok()?;
    let constants = Vec::new(alloc);
    Some(Board {
        store,
        problem: Problem {
            prefix,
            constants,
            matrix,
        },
        top: matrix,
    })
}

/// The clauses of false, under the ids 1 and 2.
pub fn clauses(alloc: Global) -> Option<ClauseList>
    ensures { IfSome result (λ list. list.live ≡ clauses_of_false) }
{
    let yes = Lit::new(1)?;
    let no = Lit::new(-1)?;
    let mut list = ClauseList::new(alloc);
    list.add(1, &[yes]).ok()?;
    list.add(2, &[no]).ok()?;
    Some(list)
}

/// A clause without literals, which is added and taken away.
pub fn undone(alloc: Global) -> Option<Vec<Step>>
    ensures { IfSome result (λ steps. lines_of steps.items ≡ undone) }
{
    let lits = Vec::new(alloc);
    let hints = Vec::from_slice(alloc, &[1, 2]).ok()?;
    let ids = Vec::from_slice(alloc, &[3]).ok()?;
    let mut steps = Vec::new(alloc);
    steps.push(Step::Add { id: 3, lits, hints }).ok()?;
    steps.push(Step::Delete { id: 3, ids }).ok()?;
    Some(steps)
}

/// The entry by which the universal player wins the lost problem, with the region true.
pub fn first(alloc: Global, top: Id) -> Entry
    ensures { row_of result ≡ record {
      level = 1;
      winner = Universal;
      region = top;
      point = [];
      terms = [];
      links = [];
    } }
{
    Entry {
        level: 1,
        winner: Quant::Forall,
        region: top,
        point: Vec::new(alloc),
        terms: Vec::new(alloc),
        links: Vec::new(alloc),
    }
}
