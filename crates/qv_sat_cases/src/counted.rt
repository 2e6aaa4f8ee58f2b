//! Cores under a counter, which charges for one list of clauses.

ghost use Rattle.std.specs.Prelude.{◌≡◌, ◌≢◌, ◌+◌, ◌<◌, ◌^◌, [], IfSome};
ghost use Rattle.qv_cnf.specs.Derivation.{additions};
ghost use Rattle.qv_cnf.specs.Listing.{clauses_of};
ghost use Rattle.qv_sat_cases.specs.Alike.{AreAlike};

use crate::cores::{Fact, recall, replace};
use crate::judging::{Original, judged};
use crate::lits::literal;
use crate::sessions::Asked;
use qv_cases_rows::{Answer, Cases, Words};
use qv_cnf::{ClauseList, Counter, Lit};
use qv_sat::{Core, Outcome, SatFault};
use std::alloc::Global;

// No case comes near this number.
const FAR: u64 = 1 << 59;

// One more clause for a core, and under the same id for a list.
fn add_to_both(core: &mut Core, list: &mut ClauseList, id: u64, lits: &[Lit]) -> Option<()>
    requires alike { AreAlike core.old list.old id }
    requires few { id < 2 ^ 59 }
    requires some { lits.now ≢ [] }
    ensures { IfSome result (λ _. AreAlike core.new list.new (id + 1)) }
{
    core.add(id, lits).ok()?;
    list.add(id, lits).ok()
}

// Adds clauses under the ids from 1 on, and gives the next id.
fn fill(
    core: &mut Core,
    list: &mut ClauseList,
    originals: &mut Vec<Original>,
    clauses: Vec<Vec<Lit>>,
) -> Option<u64>
    requires { AreAlike core.old list.old 1 }
    ensures alike { IfSome result (λ next. AreAlike core.new list.new next) }
    ensures few { IfSome result (λ next. next < 2 ^ 59) }
{
    let mut next = 1;
    for lits in clauses {
        next = add_next(core, list, originals, next, lits)?;
    }
    if next < FAR { Some(next) } else { None }
}

// Adds a clause under this id, and gives the next one.
fn add_next(
    core: &mut Core,
    list: &mut ClauseList,
    originals: &mut Vec<Original>,
    id: u64,
    lits: Vec<Lit>,
) -> Option<u64>
    requires { AreAlike core.old list.old id }
    ensures { IfSome result (λ next. AreAlike core.new list.new next) }
{
    if lits.is_empty() || id >= FAR {
        return None;
    }
    add_to_both(core, list, id, &lits)?;
    originals.push(Original { id, lits }).ok()?;
    Some(id + 1)
}

// A core, and a counter that charges for it.
#[derive(Drop)]
struct Counted {
    core: Core,
    counter: Counter,
    originals: Vec<Original>,
    ghost base: { clauses_of core.base ≡ counter.base },
    ghost charged: { additions core.steps ≡ counter.count },
    ghost few: { core.top + counter.left < 2 ^ 62 },
}

impl Counted {
    fn ask(&mut self, assumptions: &[Lit]) -> Result<Outcome, SatFault> {
        self.core.solve(assumptions, &mut self.counter)
    }
}

// A core, and a list of the same clauses.
#[derive(Drop)]
struct Filled {
    core: Core,
    list: ClauseList,
    originals: Vec<Original>,
}

fn unfilled(alloc: Global) -> Filled
    ensures { AreAlike result.core result.list 1 }
{
    Filled {
        core: Core::new(alloc),
        list: ClauseList::new(alloc),
        originals: Vec::new(alloc),
    }
}

// Fills a core and a list that have nothing, and gives the next id.
fn fill_both(filled: &mut Filled, clauses: Vec<Vec<Lit>>) -> Option<u64>
    requires { AreAlike filled.old.core filled.old.list 1 }
    ensures alike { IfSome result (λ next. AreAlike filled.new.core filled.new.list next) }
    ensures few { IfSome result (λ next. next < 2 ^ 59) }
{
    fill(
        &mut filled.core,
        &mut filled.list,
        &mut filled.originals,
        clauses,
    )
}

// Adds a core that has these clauses, and its counter.
fn add_counted(
    alloc: Global,
    limit: u64,
    clauses: Vec<Vec<Lit>>,
    counted: &mut Vec<Counted>,
) -> bool
    requires { limit < 2 ^ 59 }
{
    let mut filled = unfilled(alloc);
    let next = fill_both(&mut filled, clauses);
    add_filled(filled, limit, next, counted)
}

// The same of a core and a list that have them, if there is a next id.
fn add_filled(filled: Filled, limit: u64, next: Option<u64>, counted: &mut Vec<Counted>) -> bool
    requires alike { IfSome next (λ next. AreAlike filled.core filled.list next) }
    requires few { IfSome next (λ next. next < 2 ^ 59) }
    requires limit { limit < 2 ^ 59 }
{
    match next {
        Some(next) => add(counted, with_counter(filled, limit, next)),
        None => false,
    }
}

// What needn't know what is added costs less proof.
fn add<T: Drop>(all: &mut Vec<T>, one: T) -> bool {
    all.push(one).is_ok()
}

// A core with a counter, of a core and a list that are alike up to this id.
fn with_counter(filled: Filled, limit: u64, next: u64) -> Counted
    requires alike { AreAlike filled.core filled.list next }
    requires few { next < 2 ^ 59 }
    requires limit { limit < 2 ^ 59 }
{
    let Filled {
        core,
        list,
        originals,
    } = filled;
    Counted {
        core,
        counter: Counter::new(list, limit),
        originals,
    }
}

enum Call {
    New,
    Ask,
    Last(Fact),
}

static CALLS: [(&str, Call); 5] = [
    ("new", Call::New),
    ("ask", Call::Ask),
    ("count", Call::Last(Fact::Count)),
    ("model", Call::Last(Fact::Model)),
    ("failed", Call::Last(Fact::Failed)),
];

/// A core under a counter, and what it answered last. The count is the counter's.
#[derive(Drop)]
pub(crate) struct CountedCase {
    alloc: Global,
    // The core with its counter, if there is one.
    counted: Vec<Counted>,
    // The answer, if there is one.
    last: Vec<Asked>,
}

impl CountedCase {
    pub(crate) fn new(alloc: Global) -> CountedCase {
        CountedCase {
            alloc,
            counted: Vec::new(alloc),
            last: Vec::new(alloc),
        }
    }

    fn renew(&mut self, words: &mut Words<'_>, out: &mut Answer) {
        let limit = words.number();
        let clauses = words.lists(self.alloc, literal);
        self.counted.clear();
        if limit < FAR {
            out.done(add_counted(self.alloc, limit, clauses, &mut self.counted));
        } else {
            out.refuse();
        }
    }

    fn ask(&mut self, words: &mut Words<'_>, out: &mut Answer) {
        let assumptions = words.each(self.alloc, literal);
        match self.counted.last_mut() {
            Some(counted) => {
                let asked = ask_counted(self.alloc, counted, &assumptions);
                out.say(asked.word);
                replace(&mut self.last, Some(asked), out);
            }
            None => replace(&mut self.last, None, out),
        }
    }
}

impl Cases for CountedCase {
    fn answer(&mut self, words: &mut Words<'_>, out: &mut Answer) {
        match words.pick(&CALLS) {
            Some(Call::New) => self.renew(words, out),
            Some(Call::Ask) => self.ask(words, out),
            Some(Call::Last(fact)) => recall(self.alloc, self.last.last(), fact, out),
            None => out.refuse(),
        }
    }
}

fn ask_counted(alloc: Global, counted: &mut Counted, assumptions: &[Lit]) -> Asked {
    let answer = counted.ask(assumptions);
    let count = counted.counter.count();
    let steps = counted.core.steps();
    let word = if steps.len() as u64 == count {
        judged(alloc, &counted.originals, steps, assumptions, &answer)
    } else {
        "wrong: steps that weren't charged"
    };
    Asked {
        answer,
        count,
        word,
    }
}
