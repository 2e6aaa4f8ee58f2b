//! The closure of a clause list under its gates.

ghost use Rattle.std.specs.Prelude.{◌≡◌, ◌≤◌, ◌<◌, ◌^◌, ◌+◌, ◌++◌, ◌∷◌, [], map, IsTrue, IfSome};
ghost use Rattle.std.specs.Prelude.{OnOk, OnErr};
ghost use Rattle.std.specs.Bool.{OnTrue};
ghost use Rattle.std.specs.List.{list_any};
ghost use Rattle.qv_cnf.specs.Listing.{next_id};
ghost use Rattle.qv_cnf.specs.LratLine.{lines_of};
ghost use Rattle.qv_cnf.specs.Refutation.{standing_at, adds_none, Refutes};

use crate::accepting::{shows, takes};
use qv_cnf::laws::rup_is_true;
use qv_cnf::{ClauseList, Lit, Step};
use qv_gates_parts::Face;
use qv_gates_search::Search;
use qv_rup::Checker;
use std::alloc::{AllocError, Global};
use std::marker::Model;

/// What a search may use. Nothing is claimed of it.
#[derive(Drop)]
pub struct Advice {
    /// Pairs of literals that may be equal: they are where gates were simulated, in the order of the
    /// gates. Behind each pair stand the inputs of the later gate.
    pub pairs: Vec<Vec<Lit>>,
    /// For the clause of each id a variable of it that stands in no clause which needs to be searched, or
    /// 0. A clause with such a variable may be left aside.
    pub guards: Vec<u32>,
}

impl Advice {
    /// None.
    pub fn none(alloc: Global) -> Advice {
        Advice {
            pairs: Vec::new(alloc),
            guards: Vec::new(alloc),
        }
    }
}

/// A base of clauses, and steps behind it, each of which a checker accepted.
#[derive(Drop)]
pub struct Closure {
    alloc: Global,
    base: ClauseList,
    checker: Checker,
    steps: Vec<Step>,
    // What is said to stand for each variable. It's looked at when it's asked for.
    faces: Vec<Option<Face>>,
    kept: Vec<u64>,
    advice: Advice,
    // The ids of the base, the id behind them, and the variable behind those that it names.
    ids: Vec<u64>,
    first: u64,
    variables: usize,
}

impl Model for Closure {
    ghost use Rattle.qv_cnf.specs.LratLine.{lines_of};
    ghost use Rattle.qv_gates.specs.Closing.{Closing};
    ghost use Rattle.qv_gates.specs.Checked.{IsChecked};

    ghost Value = { Closing };

    ghost view = { λ a. record { base = a.base.live; steps = lines_of a.steps.items } };

    ghost invariant = { λ a. IsChecked a.base a.checker (lines_of a.steps.items) };
}

// What a search found.
#[derive(Drop)]
struct Found {
    steps: Vec<Step>,
    faces: Vec<Option<Face>>,
    kept: Vec<u64>,
    advice: Advice,
}

impl Closure {
    ghost use Rattle.qv_gates.specs.Closing.{no_clauses, Adds, GoesOn, IsEqual, IsShown, StandsFor};

    /// With no clause.
    pub fn new(alloc: Global) -> Closure
        ensures { result ≡ no_clauses }
    {
        Closure {
            alloc,
            base: ClauseList::new(alloc),
            checker: Checker::new(alloc),
            steps: Vec::new(alloc),
            faces: Vec::new(alloc),
            kept: Vec::new(alloc),
            advice: Advice::none(alloc),
            ids: Vec::new(alloc),
            first: 0,
            variables: 0,
        }
    }

    /// Adds a clause to the base.
    pub fn add(&mut self, id: u64, lits: &[Lit]) -> Result<(), AllocError>
        requires above { next_id (map (λ c. c.id) self.old.base) ≤ id }
        requires few { id < 2 ^ 62 }
        requires none { self.old.steps ≡ [] }
        ensures ok { OnOk result (self.new ≡ record {
          base = self.old.base ++ record { id = id; lits = lits.now } ∷ [];
          steps = [];
        }) }
        ensures next { OnOk result (next_id (map (λ c. c.id) self.new.base) ≡ id + 1) }
        ensures err { OnErr result (self.new ≡ self.old) }
    {
        let _listing = self.base.may_add(0);
        self.ids.reserve(1)?;
        self.base.add(id, lits)?;
        if let Err(_fault) = self.checker.original(id, lits) {
            self.base.cut(id);
            return Err(AllocError);
        }
        self.ids.push_reserved(id);
        self.first = id + 1;
        self.variables = self.variables.max(behind(lits));
        Ok(())
    }

    /// Adds the steps that make equal gates one, in so many rounds of each kind.
    pub fn close(&mut self, rounds: u32) -> Result<(), AllocError>
        ensures { GoesOn self.old self.new }
    {
        let Found {
            steps,
            faces,
            kept,
            advice,
        } = self.find(rounds)?;
        self.faces = faces;
        self.kept = kept;
        self.advice = advice;
        self.take_all(steps);
        Ok(())
    }

    /// The steps.
    pub fn steps(&self) -> &[Step]
        ensures steps { lines_of result.now ≡ self.now.steps }
        ensures adds { Adds (standing_at self.now.base) self.now.steps }
    {
        &self.steps
    }

    /// The steps, and what a search may use.
    pub fn finish(self) -> (Vec<Step>, Advice)
        ensures steps { lines_of result.0.items ≡ self.steps }
    {
        let Closure { steps, advice, .. } = self;
        (steps, advice)
    }

    /// Whether a step adds a clause without literals. Then the base has no model.
    pub fn is_refuted(&self) -> bool
        ensures refuted { result ≡ list_any adds_none self.now.steps }
        ensures refutes { IsTrue result → Refutes self.now.base self.now.steps }
    {
        self.checker.is_refuted()
    }

    /// The literal that stands for a variable, if it isn't the variable itself: two of the steps
    /// say that they are equal.
    pub fn stands_for(&self, variable: u32) -> Option<Lit>
        ensures shown { IfSome result (StandsFor self.now.steps variable) }
        ensures equal { IfSome result (IsEqual self.now.base variable) }
    {
        rup_is_true();
        let _steps = self.steps();
        let face = self.face(variable)?;
        let lit = Lit::new(i32::try_from(variable).ok()?)?;
        if self.is_shown(lit, face.lit, face.forth, face.back) {
            Some(face.lit)
        } else {
            None
        }
    }

    /// The ids of clauses of the base and of the steps that are to be searched in place of all.
    pub fn kept(&self) -> &[u64] {
        &self.kept
    }

    fn face(&self, variable: u32) -> Option<Face> {
        match self.faces.get(variable as usize) {
            Some(face) => *face,
            None => None,
        }
    }

    // Whether the steps of these ids say that the first literal implies the second, and is implied
    // by it.
    fn is_shown(&self, x: Lit, y: Lit, forth: u64, back: u64) -> bool
        ensures { OnTrue result (IsShown self.now.steps x y) }
    {
        shows(&self.steps, self.place(forth), x.negated(), y)
            && shows(&self.steps, self.place(back), x, y.negated())
    }

    // The place of the step of that id.
    fn place(&self, id: u64) -> usize {
        id.wrapping_sub(self.first) as usize
    }

    fn find(&self, rounds: u32) -> Result<Found, AllocError> {
        let mut search = Search::new(self.alloc, &self.base, self.first);
        let kept = search.run(&self.ids, self.variables, rounds)?;
        let pairs = search.pairs(self.variables)?;
        let guards = search.guards()?;
        let (steps, faces) = search.finish();
        Ok(Found {
            steps,
            faces,
            kept,
            advice: Advice { pairs, guards },
        })
    }

    // Takes steps up to the first that the checker refuses.
    fn take_all(&mut self, steps: Vec<Step>)
        ensures { GoesOn self.old self.new }
    {
        'steps: for step in steps {
            if !self.take(step) {
                return;
            }
        }
    }

    // Takes a step, if the checker does and there is memory for it.
    fn take(&mut self, step: Step) -> bool
        ensures { GoesOn self.old self.new }
    {
        if self.steps.reserve(1).is_err() {
            return false;
        }
        if !takes(&mut self.checker, &step) {
            return false;
        }
        self.steps.push_reserved(step);
        true
    }
}

// The variable behind those of the literals.
fn behind(lits: &[Lit]) -> usize {
    let mut most = 0;
    for lit in lits {
        most = most.max(lit.variable() as usize + 1);
    }
    most
}
