//! The passes that pay over a list of formulas.

ghost use Rattle.std.specs.Prelude.{◌≡◌, ◌<◌, ◌↔◌, All, IfOk, IsTrue, OnOk, length};
ghost use Rattle.qv_words.specs.Tree.{IsQuantifierFree};
ghost use Rattle.qv_store.specs.Nodes.{tree_at};
ghost use Rattle.qv_store.specs.Stores.{Grows};
ghost use Rattle.qv_store.specs.Walks.{named};
ghost use Rattle.qv_rewrite_passes.specs.Passes.{behind_all, EachChanges};
ghost use Rattle.qv_rewrite_lists.specs.Rewriting.{AreFormulas, IsFurther};

use crate::measuring::{Measure, measure_list};
use crate::taking::take;
use qv_rewrite_passes::Pass;
use qv_store::{Id, NoMemory, Store};
use qv_words::RULES;
use std::alloc::Global;

// How often the passes of a trial are taken, each time with the rules behind them.
const ROUNDS: u32 = 4;

// Which passes are tried in front of that of small rules and the ten rules.
#[derive(Clone, Copy)]
enum Trial {
    // None.
    Plain,
    // That of sums, then that of exclusive or.
    Both,
    // That of sums alone.
    Sums,
    // That of exclusive or alone.
    Xors,
}

// The trials in their order.
const TRIALS: [Trial; 4] = [Trial::Plain, Trial::Both, Trial::Sums, Trial::Xors];

impl Trial {
    // Whether a list has what its passes change.
    fn suits(self, list: &Measure) -> bool {
        match self {
            Trial::Plain => true,
            Trial::Both => list.sums && list.xors,
            Trial::Sums => list.sums,
            Trial::Xors => list.xors,
        }
    }

    // Whether it takes the pass of sums.
    fn has_sums(self) -> bool {
        matches!(self, Trial::Both | Trial::Sums)
    }

    // Whether it takes the pass of exclusive or.
    fn has_xors(self) -> bool {
        matches!(self, Trial::Both | Trial::Xors)
    }
}

/// Formulas behind passes, and these passes, each of which changes the list.
#[derive(Debug, Drop)]
pub struct Rewritten {
    pub passes: Vec<Pass>,
    pub list: Vec<Id>,
}

/// The formulas behind the passes that pay: the ten rules in their order, and, where that leaves
/// fewer multiplications or fewer terms, the pass of small rules with the ten rules behind it, alone
/// or behind the passes of sums and of exclusive or. Also where memory runs out the store keeps what
/// was put.
pub fn rewrite(alloc: Global, store: &mut Store, list: Vec<Id>) -> Result<Rewritten, NoMemory>
    requires below { All (λ id. id < length store.old) list.items }
    requires free { All (λ id. IsQuantifierFree (tree_at store.old id)) list.items }
    ensures list { IfOk result (λ made. named store.new made.list.items
        ≡ behind_all made.passes.items (named store.old list.items)) }
    ensures changes { IfOk result (λ made. EachChanges made.passes.items
        (named store.old list.items)) }
    ensures below { IfOk result (λ made. All (λ id. id < length store.new) made.list.items) }
    ensures free { IfOk result (λ made.
        All (λ id. IsQuantifierFree (tree_at store.new id)) made.list.items) }
    ensures grows { Grows store.old store.new }
{
    let mut made = Rewritten {
        passes: Vec::new(alloc),
        list,
    };
    take_rules(alloc, store, &mut made)?;
    try_each(alloc, store, &mut made)?;
    Ok(made)
}

// The trials one after the other, each where it pays.
fn try_each(alloc: Global, store: &mut Store, made: &mut Rewritten) -> Result<(), NoMemory>
    requires { AreFormulas store.old made.old.list.items }
    ensures further { OnOk result (IsFurther store.old store.new made.old made.new) }
    ensures grows { Grows store.old store.new }
{
    let mut measure = measure_list(alloc, store, &made.list)?;
    if measure.is_small() {
        'trials: for trial in &TRIALS {
            try_one(alloc, store, *trial, made, &mut measure)?;
        }
    }
    Ok(())
}

// A trial where it suits a list that was measured.
fn try_one(
    alloc: Global,
    store: &mut Store,
    trial: Trial,
    made: &mut Rewritten,
    measure: &mut Measure,
) -> Result<(), NoMemory>
    requires { AreFormulas store.old made.old.list.items }
    ensures further { OnOk result (IsFurther store.old store.new made.old made.new) }
    ensures grows { Grows store.old store.new }
{
    if trial.suits(measure) {
        take_better(alloc, store, trial, made, measure)
    } else {
        Ok(())
    }
}

// What a trial makes of a list, where that looks better.
fn take_better(
    alloc: Global,
    store: &mut Store,
    trial: Trial,
    made: &mut Rewritten,
    measure: &mut Measure,
) -> Result<(), NoMemory>
    requires { AreFormulas store.old made.old.list.items }
    ensures further { OnOk result (IsFurther store.old store.new made.old made.new) }
    ensures grows { Grows store.old store.new }
{
    let mut tried = copy(alloc, made)?;
    take_rounds(alloc, store, trial, &mut tried)?;
    let behind = measure_list(alloc, store, &tried.list)?;
    if behind.is_better(measure) {
        *made = tried;
        *measure = behind;
    }
    Ok(())
}

// The same formulas and passes.
fn copy(alloc: Global, made: &Rewritten) -> Result<Rewritten, NoMemory>
    ensures passes { IfOk result (λ copied. copied.passes.items ≡ made.now.passes.items) }
    ensures list { IfOk result (λ copied. copied.list.items ≡ made.now.list.items) }
{
    Ok(Rewritten {
        passes: Vec::from_slice(alloc, &made.passes)?,
        list: Vec::from_slice(alloc, &made.list)?,
    })
}

// Rounds until nothing changes.
fn take_rounds(
    alloc: Global,
    store: &mut Store,
    trial: Trial,
    made: &mut Rewritten,
) -> Result<(), NoMemory>
    requires { AreFormulas store.old made.old.list.items }
    ensures further { OnOk result (IsFurther store.old store.new made.old made.new) }
    ensures grows { Grows store.old store.new }
{
    'rounds: for _round in 0..ROUNDS {
        let count = made.passes.len();
        take_round(alloc, store, trial, made)?;
        if made.passes.len() == count {
            return Ok(());
        }
    }
    Ok(())
}

// The passes of a trial, that of small rules, and the rules in their order.
fn take_round(
    alloc: Global,
    store: &mut Store,
    trial: Trial,
    made: &mut Rewritten,
) -> Result<(), NoMemory>
    requires { AreFormulas store.old made.old.list.items }
    ensures further { OnOk result (IsFurther store.old store.new made.old made.new) }
    ensures grows { Grows store.old store.new }
{
    take_where(alloc, store, trial.has_sums(), Pass::Sum, made)?;
    take_where(alloc, store, trial.has_xors(), Pass::Xor, made)?;
    take_one(alloc, store, Pass::Simp, made)?;
    take_rules(alloc, store, made)
}

// A pass where it is wanted.
fn take_where(
    alloc: Global,
    store: &mut Store,
    wanted: bool,
    pass: Pass,
    made: &mut Rewritten,
) -> Result<(), NoMemory>
    requires { AreFormulas store.old made.old.list.items }
    ensures further { OnOk result (IsFurther store.old store.new made.old made.new) }
    ensures grows { Grows store.old store.new }
{
    if wanted {
        take_one(alloc, store, pass, made)
    } else {
        Ok(())
    }
}

// The ten rules in their order.
fn take_rules(alloc: Global, store: &mut Store, made: &mut Rewritten) -> Result<(), NoMemory>
    requires { AreFormulas store.old made.old.list.items }
    ensures further { OnOk result (IsFurther store.old store.new made.old made.new) }
    ensures grows { Grows store.old store.new }
{
    'rules: for rule in &RULES {
        take_one(alloc, store, Pass::By(*rule), made)?;
    }
    Ok(())
}

// One pass, which is noted where it changes the list.
fn take_one(
    alloc: Global,
    store: &mut Store,
    pass: Pass,
    made: &mut Rewritten,
) -> Result<(), NoMemory>
    requires { AreFormulas store.old made.old.list.items }
    ensures further { OnOk result (IsFurther store.old store.new made.old made.new) }
    ensures grows { Grows store.old store.new }
{
    let taken = take(alloc, store, pass, &made.list)?;
    let _terms = store.len();
    if are_same(&taken, &made.list) {
        return Ok(());
    }
    made.passes.push(pass)?;
    made.list = taken;
    Ok(())
}

// Whether these are the same ids.
fn are_same(some: &[Id], others: &[Id]) -> bool
    ensures { IsTrue result ↔ (some.now ≡ others.now) }
{
    some == others
}
