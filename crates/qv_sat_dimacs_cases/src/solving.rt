//! A core that is asked about a problem.

ghost use Rattle.std.specs.Prelude.{◌≢◌, ◌+◌, ◌<◌, ◌^◌, [], IfSome};
ghost use Rattle.qv_sat_dimacs_cases.specs.Alike.{AreAlike, MayAsk};

use qv_cnf::{ClauseList, Counter, Lit, Step};
use qv_sat::{Core, Outcome, Policy, SatFault, Work};
use std::alloc::Global;

// No case comes near this number.
const FAR: u64 = 1 << 59;

/// What a core answered about a problem, after how many conflicts. There is no answer where a
/// clause has no literals.
#[derive(Drop)]
pub(crate) struct Solved {
    core: Core,
    pub(crate) answer: Option<Result<Outcome, SatFault>>,
    pub(crate) conflicts: u64,
}

impl Solved {
    /// What the core learnt and deleted.
    pub(crate) fn steps(&self) -> &[Step] {
        self.core.steps()
    }

    /// How much the core did.
    pub(crate) fn work(&self) -> Work {
        self.core.work()
    }

    /// How the core searched.
    pub(crate) fn policy(&self) -> Policy {
        self.core.policy()
    }
}

/// Asks a core about the clauses, under the ids from 1 on, with no more conflicts than the limit,
/// and adds what it answers.
pub(crate) fn solve(
    alloc: Global,
    clauses: &[Vec<Lit>],
    limit: u64,
    solved: &mut Vec<Solved>,
) -> bool {
    let mut core = Core::new(alloc);
    let list = ClauseList::new(alloc);
    let (answer, conflicts) = ask_about(&mut core, list, clauses, limit);
    let one = Solved {
        core,
        answer,
        conflicts,
    };
    add(solved, one)
}

// What needn't know what is added costs less proof.
fn add<T: Drop>(all: &mut Vec<T>, one: T) -> bool {
    all.push(one).is_ok()
}

// Fills a core and a list that have nothing, and asks.
fn ask_about(
    core: &mut Core,
    list: ClauseList,
    clauses: &[Vec<Lit>],
    limit: u64,
) -> (Option<Result<Outcome, SatFault>>, u64)
    requires { AreAlike core.old list 1 }
{
    let mut list = list;
    let next = fill(core, &mut list, clauses);
    ask(core, list, next, limit)
}

// Asks a core, if it was filled, and counts its conflicts.
fn ask(
    core: &mut Core,
    list: ClauseList,
    next: Option<u64>,
    limit: u64,
) -> (Option<Result<Outcome, SatFault>>, u64)
    requires { IfSome next (λ next. AreAlike core.old list next) }
{
    match next {
        Some(next) if next < FAR && limit < FAR => ask_counting(core, Counter::new(list, limit)),
        _ => (None, 0),
    }
}

fn ask_counting(core: &mut Core, counter: Counter) -> (Option<Result<Outcome, SatFault>>, u64)
    requires { MayAsk core.old counter }
{
    let mut counter = counter;
    let answer = core.solve(&[], &mut counter);
    (Some(answer), counter.count())
}

// Adds the clauses to a core, and to the list that a counter charges for. The answer is the next
// id.
fn fill(core: &mut Core, list: &mut ClauseList, clauses: &[Vec<Lit>]) -> Option<u64>
    requires { AreAlike core.old list.old 1 }
    ensures { IfSome result (λ next. AreAlike core.new list.new next) }
{
    let mut next = 1;
    for lits in clauses {
        if lits.is_empty() || next >= FAR {
            return None;
        }
        add_to_both(core, list, next, lits)?;
        next += 1;
    }
    Some(next)
}

fn add_to_both(core: &mut Core, list: &mut ClauseList, id: u64, lits: &[Lit]) -> Option<()>
    requires alike { AreAlike core.old list.old id }
    requires few { id < 2 ^ 59 }
    requires some { lits.now ≢ [] }
    ensures { IfSome result (λ _. AreAlike core.new list.new (id + 1)) }
{
    core.add(id, lits).ok()?;
    list.add(id, lits).ok()
}
