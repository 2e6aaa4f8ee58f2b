//! Clauses of the base that a search leaves aside until it ends.

ghost use Rattle.std.specs.Prelude.{◌≡◌, ◌≢◌, ◌++◌, ◌∷◌, ◌<◌, ◌↔◌, [], false, true, Any, IsTrue};
ghost use Rattle.std.specs.Prelude.{OnOk, vec_capacity, vec_len};
ghost use Rattle.std.specs.Bool.{OnFalse};
ghost use Rattle.qv_cnf.specs.Literal.{Literal};
ghost use Rattle.qv_sat.specs.Aside.{is_guard, HasNoGuard, KeepsGuards};

use qv_cnf::Lit;
use std::alloc::{AllocError, Global};

// Their ids, which rise, and for each variable whether it guards. Each of the clauses has a literal
// whose variable guards, so a clause without such a literal contains none of them.
#[derive(Drop)]
pub(crate) struct Aside {
    pub(crate) ids: Vec<u64>,
    pub(crate) guards: Vec<bool>,
}

impl Aside {
    pub(crate) fn new(alloc: Global) -> Aside
        ensures { result.ids.items ≡ [] }
    {
        Aside {
            ids: Vec::new(alloc),
            guards: Vec::new(alloc),
        }
    }

    // Whether there are none.
    pub(crate) fn is_empty(&self) -> bool
        ensures { IsTrue result ↔ (self.now.ids.items ≡ []) }
    {
        self.ids.is_empty()
    }

    // Makes room for one more clause, and lets a variable guard.
    pub(crate) fn guard(&mut self, variable: u32) -> Result<(), AllocError>
        ensures ids { self.new.ids.items ≡ self.old.ids.items }
        ensures room { OnOk result (vec_len self.new.ids < vec_capacity self.new.ids) }
        ensures keeps { KeepsGuards self.old.guards.items self.new.guards.items }
        ensures guards { OnOk result ((l : Literal) → l.variable ≡ variable →
            is_guard self.new.guards.items l ≡ true) }
    {
        let place = variable as usize;
        if self.guards.len() <= place {
            self.guards.resize(place + 1, false)?;
        }
        self.guards[place] = true;
        self.ids.reserve(1)
    }

    // Whether some of the clauses may be contained in one of these literals.
    pub(crate) fn may_be_in(&self, lits: &[Lit]) -> bool
        ensures some { IsTrue result → self.now.ids.items ≢ [] }
        ensures apart { OnFalse result (HasNoGuard self.now lits.now) }
    {
        !self.ids.is_empty() && self.has_guard(lits)
    }

    // Whether some literal's variable guards.
    fn has_guard(&self, lits: &[Lit]) -> bool
        ensures { IsTrue result ↔ Any (λ l. is_guard self.now.guards.items l ≡ true) lits.now }
    {
        lits.iter().any(|lit| self.is_guard(*lit))
    }

    // Whether the literal's variable guards.
    fn is_guard(&self, lit: Lit) -> bool
        ensures { result ≡ is_guard self.now.guards.items lit }
    {
        let place = lit.variable() as usize;
        place < self.guards.len() && self.guards[place]
    }
}
