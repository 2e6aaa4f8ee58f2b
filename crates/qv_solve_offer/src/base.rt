//! The clauses of formulas, and a core that is asked about them.

ghost use Rattle.std.specs.Prelude.{◌≡◌, ◌≤◌, ◌<◌, ◌^◌, IfOk, List, OnOk, length};
ghost use Rattle.qv_words.specs.Tree.{Tree, IsQuantifierFree};
ghost use Rattle.qv_store.specs.Nodes.{tree_at};
ghost use Rattle.qv_store.specs.Stores.{AreShared};
ghost use Rattle.qv_solve_offer.specs.Asking.{HasRoom, IsBase};

use crate::tally::Tally;
use qv_blast::{BlastFault, Blaster};
use qv_cnf::{ClauseList, Lit};
use qv_sat::{Core, Outcome, SatFault};
use qv_store::{Id, NoMemory, Store};
use qv_words::Word;
use std::alloc::{AllocError, Global};

// No greater variable is taken: so some hundred megabytes hold the clauses.
const MOST_VARIABLES: u32 = 1 << 21;

// Memory holds fewer clauses.
const MOST_IDS: u64 = 1 << 61;

// What is no larger than this is never outgrown.
const FEW_IDS: u64 = 1 << 11;

// How often at most the core is asked again whether fewer assumptions fail.
const MOST_ROUNDS: u64 = 8;

/// The clauses of formulas in one store, and a core that has them under ids up to the last. The
/// first is the last one that there was when it was noted.
#[derive(Drop)]
pub(crate) struct Base {
    blaster: Blaster,
    core: Core,
    last: u64,
    first: u64,
}

impl Base {
    /// No formulas.
    pub(crate) fn new(alloc: Global) -> Result<Base, NoMemory>
        ensures { IfOk result (λ base. (trees : List Tree) → AreShared trees →
            IsBase trees base) }
    {
        let blaster = Blaster::new(alloc, MOST_VARIABLES)?;
        let mut core = Core::new(alloc);
        let last = feed(&mut core, blaster.clauses(), 1, 2, 0)?;
        Ok(Base {
            blaster,
            core,
            last,
            first: 0,
        })
    }

    /// One more formula that holds.
    pub(crate) fn assert(&mut self, store: &Store, formula: Id) -> Result<(), BlastFault>
        requires id { formula < length store.now }
        requires free { IsQuantifierFree (tree_at store.now formula) }
        requires base { IsBase store.now self.old }
        ensures base { OnOk result (IsBase store.now self.new) }
    {
        let added = self.blaster.assert(store, formula)?;
        let clauses = self.blaster.clauses();
        self.last = feed(&mut self.core, clauses, added.first, added.end, self.last)?;
        Ok(())
    }

    /// One more formula, and the literal under which it holds: the clause that says so, which comes
    /// last, is left out.
    pub(crate) fn name(&mut self, store: &Store, formula: Id) -> Result<Option<Lit>, BlastFault>
        requires id { formula < length store.now }
        requires free { IsQuantifierFree (tree_at store.now formula) }
        requires base { IsBase store.now self.old }
        ensures base { OnOk result (IsBase store.now self.new) }
    {
        let added = self.blaster.assert(store, formula)?;
        let clauses = self.blaster.clauses();
        let unit = added.end - 1;
        self.last = feed(&mut self.core, clauses, added.first, unit, self.last)?;
        Ok(first_of(clauses, unit))
    }

    /// The literal under which a formula holds, which comes to the others if it isn't there.
    pub(crate) fn lit(&mut self, store: &Store, formula: Id) -> Result<Option<Lit>, BlastFault>
        requires id { formula < length store.now }
        requires free { IsQuantifierFree (tree_at store.now formula) }
        requires base { IsBase store.now self.old }
        ensures base { OnOk result (IsBase store.now self.new) }
    {
        match self.known(store, formula) {
            Some(lit) => Ok(Some(lit)),
            None => self.name(store, formula),
        }
    }

    // The literal of a formula that stands in one of the others.
    fn known(&self, store: &Store, formula: Id) -> Option<Lit>
        requires id { formula < length store.now }
        requires base { IsBase store.now self.now }
    {
        self.blaster.bits(store, formula)?.first().copied()
    }

    /// Notes how large it is, the first time.
    pub(crate) fn note(&mut self)
        ensures { (trees : List Tree) → IsBase trees self.old → IsBase trees self.new }
    {
        if self.first == 0 {
            self.first = self.last;
        }
    }

    /// Whether it has become large beside what it was then.
    pub(crate) fn is_outgrown(&self) -> bool {
        self.last / 2 > self.first.saturating_add(FEW_IDS)
    }

    /// A model of all under assumptions, if the core finds one within the budget.
    pub(crate) fn model(
        &mut self,
        assumptions: &[Lit],
        conflicts: u64,
    ) -> Result<Option<Vec<bool>>, NoMemory>
        requires base { (trees : List Tree) × IsBase trees self.old }
        requires few { conflicts < 2 ^ 60 }
        ensures base { (trees : List Tree) → IsBase trees self.old → IsBase trees self.new }
    {
        if self.last > MOST_IDS - conflicts {
            return Err(AllocError);
        }
        let mut tally = Tally::new(conflicts);
        let answer = self.core.solve(assumptions, &mut tally);
        self.last += tally.count();
        model_in(answer)
    }

    /// The word that a term has in a model, if it stands in a formula.
    pub(crate) fn word(&self, store: &Store, id: Id, model: &[bool]) -> Option<Word>
        requires id { id < length store.now }
        requires base { IsBase store.now self.now }
    {
        let sort = store.sort(id);
        let bits = self.blaster.bits(store, id)?;
        Word::new(sort, number_in(model, bits))
    }

    /// Assumptions that fail together, if the core finds within its budget that they do. It is asked
    /// again under what failed alone, while it then names fewer.
    pub(crate) fn failed(
        &mut self,
        assumptions: &[Lit],
        conflicts: u64,
    ) -> Result<Option<Vec<Lit>>, NoMemory>
        requires base { (trees : List Tree) × IsBase trees self.old }
        requires few { conflicts < 2 ^ 60 }
    {
        let mut tally = Tally::new(conflicts);
        match ask(&mut self.core, assumptions, &mut tally)? {
            Some(mut failed) => {
                narrow(&mut self.core, &mut failed, &mut tally)?;
                Ok(Some(failed))
            }
            None => Ok(None),
        }
    }
}

// The model that a core has found.
fn model_in(answer: Result<Outcome, SatFault>) -> Result<Option<Vec<bool>>, NoMemory> {
    match answer {
        Ok(Outcome::Found(model)) => Ok(Some(model)),
        Ok(Outcome::Unsat { .. }) => Ok(None),
        Err(SatFault::Spent) => Ok(None),
        Err(SatFault::NoMemory) => Err(AllocError),
    }
}

// The number of bits in a model, low bit first.
fn number_in(model: &[bool], bits: &[Lit]) -> u128 {
    let mut number = 0u128;
    let mut weight = 1u128;
    'bits: for bit in bits {
        if is_true(model, *bit) {
            number = number.wrapping_add(weight);
        }
        weight = weight.wrapping_add(weight);
    }
    number
}

// Whether a literal is true in a model.
fn is_true(model: &[bool], lit: Lit) -> bool {
    let index = lit.variable() as usize - 1;
    let holds = index < model.len() && model[index];
    holds == lit.is_positive()
}

// The first literal of a clause.
fn first_of(clauses: &ClauseList, id: u64) -> Option<Lit> {
    clauses.get(id)?.first().copied()
}

// The clauses of these ids go to a core under ids behind the last. Gives the last one then.
fn feed(
    core: &mut Core,
    clauses: &ClauseList,
    first: u64,
    end: u64,
    last: u64,
) -> Result<u64, AllocError>
    requires top { core.old.top ≤ last }
    requires few { last ≤ 2 ^ 61 }
    ensures top { IfOk result (λ last. core.new.top ≤ last) }
    ensures few { IfOk result (λ last. last ≤ 2 ^ 61) }
{
    let mut last = last;
    'clauses: for id in first..end {
        last = give(core, clauses, id, last)?;
    }
    Ok(last)
}

// The clause of an id goes to a core, if it has literals.
fn give(core: &mut Core, clauses: &ClauseList, id: u64, last: u64) -> Result<u64, AllocError>
    requires top { core.old.top ≤ last }
    requires few { last ≤ 2 ^ 61 }
    ensures top { IfOk result (λ last. core.new.top ≤ last) }
    ensures few { IfOk result (λ last. last ≤ 2 ^ 61) }
{
    match clauses.get(id) {
        Some(lits) if !lits.is_empty() => {
            if last == MOST_IDS {
                return Err(AllocError);
            }
            core.add(last + 1, lits)?;
            Ok(last + 1)
        }
        _ => Ok(last),
    }
}

// Assumptions that fail together, if the core finds that within the budget.
fn ask(
    core: &mut Core,
    assumptions: &[Lit],
    tally: &mut Tally,
) -> Result<Option<Vec<Lit>>, NoMemory>
    requires room { HasRoom core.old tally.old }
    ensures room { HasRoom core.new tally.new }
{
    match core.solve(assumptions, tally) {
        Ok(Outcome::Unsat { core }) => Ok(Some(core)),
        Ok(Outcome::Found(_)) => Ok(None),
        Err(SatFault::Spent) => Ok(None),
        Err(SatFault::NoMemory) => Err(AllocError),
    }
}

// Asks again under what failed, the last first, while fewer fail then.
fn narrow(core: &mut Core, failed: &mut Vec<Lit>, tally: &mut Tally) -> Result<(), NoMemory>
    requires room { HasRoom core.old tally.old }
{
    'rounds: for _round in 0..MOST_ROUNDS {
        if !is_narrowed(core, failed, tally)? {
            return Ok(());
        }
    }
    Ok(())
}

// Asks once more. Says whether fewer fail.
fn is_narrowed(core: &mut Core, failed: &mut Vec<Lit>, tally: &mut Tally) -> Result<bool, NoMemory>
    requires room { HasRoom core.old tally.old }
    ensures room { HasRoom core.new tally.new }
{
    failed.reverse();
    match ask(core, failed, tally)? {
        Some(fewer) if fewer.len() < failed.len() => {
            *failed = fewer;
            Ok(true)
        }
        _ => Ok(false),
    }
}
