//! The clause list of a blaster, with the next variable and the next id.

ghost use Rattle.std.specs.Prelude.{◌≡◌, ◌≤◌, ◌<◌, ◌+◌, ◌^◌, ◌++◌, ◌∷◌, [], Err, IfOk, OnOk, OnErr};
ghost use Rattle.std.specs.Prelude.{map, length};
ghost use Rattle.qv_words.specs.Sort.{width_of};
ghost use Rattle.qv_words.specs.Gate.{gates_clauses, yes};
ghost use Rattle.qv_words.specs.Clauses.{variables_from};
ghost use Rattle.qv_words.specs.OpCircuit.{op_circuit};
ghost use Rattle.qv_cnf.specs.Listing.{IsListing, next_id};
ghost use Rattle.qv_circuits.specs.Adding.{lits_of};
ghost use Rattle.qv_circuits.specs.Fitting.{FitsRank};

use crate::building::{build, fresh};
use crate::faults::BlastFault;
use qv_cnf::{ClauseList, Lit};
use qv_words::{Op, Sort};
use std::alloc::{AllocError, Global};
use std::marker::Model;

// Where a list stood.
#[derive(Clone, Copy)]
pub(crate) struct Mark {
    pub(crate) next: u32,
    pub(crate) id: u64,
}

/// Clauses under ids from 1 on.
#[derive(Drop)]
pub(crate) struct Lists {
    pub(crate) alloc: Global,
    limit: u32,
    next: u32,
    id: u64,
    list: ClauseList,
}

impl Model for Lists {
    ghost use Rattle.std.specs.Prelude.{◌≤◌, ◌^◌};
    ghost use Rattle.qv_blast.specs.Blasters.{Listed, IsListed};

    ghost Value = { Listed };

    ghost view = { λ a. record { limit = a.limit; next = a.next; id = a.id; list = a.list } };

    ghost invariant = { λ a. (a.limit ≤ 2 ^ 30)
        × IsListed (record { limit = a.limit; next = a.next; id = a.id; list = a.list }) };
}

impl Lists {
    ghost use Rattle.qv_blast.specs.Blasters.{Listed, IsListed, clauses_in, from_one, IsGrown};
    ghost use Rattle.qv_blast.specs.Blasters.{StoodAt};

    /// The clause 1 alone.
    pub(crate) fn new(alloc: Global, limit: u32) -> Result<Lists, AllocError>
        requires some { 1 ≤ limit }
        requires most { limit ≤ 2 ^ 30 }
        ensures first { IfOk result (λ s. (s.next ≡ 2) × (clauses_in s.list ≡ (yes ∷ []) ∷ [])) }
        ensures limit { IfOk result (λ s. s.limit ≡ limit) }
    {
        let mut list = ClauseList::new(alloc);
        list.add(1, &[Lit::default()])?;
        Ok(Lists {
            alloc,
            limit,
            next: 2,
            id: 2,
            list,
        })
    }

    /// Where it stands.
    pub(crate) fn mark(&self) -> Mark
        ensures next { result.next ≡ self.now.next }
        ensures id { result.id ≡ self.now.id }
        ensures listing { IsListing self.now.list }
        ensures listed { IsListed self.now }
    {
        let may = self.list.may_add(self.id);
        prove!(may);
        Mark {
            next: self.next,
            id: self.id,
        }
    }

    /// Adds the clauses of an operator's circuit.
    pub(crate) fn circuit(&mut self, op: Op, args: &[&[Lit]]) -> Result<Vec<Lit>, BlastFault>
        requires { FitsRank op (map (λ v. lits_of v.now) args.now) }
        ensures result { IfOk result (λ bits. lits_of bits.items ≡
            (op_circuit op (map (λ v. lits_of v.now) args.now) self.old.next).result) }
        ensures next { OnOk result (self.new.next ≡ self.old.next + length
            (op_circuit op (map (λ v. lits_of v.now) args.now) self.old.next).gates) }
        ensures clauses { OnOk result (clauses_in self.new.list ≡ clauses_in self.old.list ++
            gates_clauses self.old.next
            (op_circuit op (map (λ v. lits_of v.now) args.now) self.old.next).gates) }
        ensures grown { IsGrown self.old self.new }
        ensures err { OnErr result (self.new ≡ self.old) }
        ensures over { result ≡ Err BlastFault.TooManyVariables → self.old.limit + 1 <
            self.old.next + length
            (op_circuit op (map (λ v. lits_of v.now) args.now) self.old.next).gates }
    {
        let may = self.list.may_add(self.id);
        prove!(may);
        let bits = build(
            self.alloc,
            op,
            args,
            &mut self.next,
            self.limit,
            &mut self.id,
            &mut self.list,
        )?;
        Ok(bits)
    }

    /// Takes new variables for the bits of a sort.
    pub(crate) fn variables(&mut self, sort: Sort) -> Result<Vec<Lit>, BlastFault>
        ensures result { IfOk result (λ bits.
            lits_of bits.items ≡ variables_from self.old.next (width_of sort)) }
        ensures next { OnOk result (self.new.next ≡ self.old.next + width_of sort) }
        ensures list { self.new.list ≡ self.old.list }
        ensures grown { IsGrown self.old self.new }
        ensures err { OnErr result (self.new ≡ self.old) }
        ensures over { result ≡ Err BlastFault.TooManyVariables →
            self.old.limit + 1 < self.old.next + width_of sort }
    {
        let bits = fresh(self.alloc, sort, &mut self.next, self.limit)?;
        Ok(bits)
    }

    /// Adds one clause.
    pub(crate) fn clause(&mut self, lits: &[Lit]) -> Result<(), AllocError>
        ensures clauses { OnOk result (clauses_in self.new.list ≡
            clauses_in self.old.list ++ lits_of lits.now ∷ []) }
        ensures next { self.new.next ≡ self.old.next }
        ensures grown { IsGrown self.old self.new }
        ensures err { OnErr result (self.new ≡ self.old) }
    {
        let may = self.list.may_add(self.id);
        prove!(may);
        self.list.add(self.id, lits)?;
        self.id += 1;
        Ok(())
    }

    /// Takes back what was added since.
    pub(crate) fn back_to(&mut self, mark: Mark)
        requires { StoodAt self.old mark.next mark.id }
        ensures { (older : Listed) → IsListing older.list → IsGrown older self.old →
            older.next ≡ mark.next → older.id ≡ mark.id → IsListed older → self.new ≡ older }
    {
        self.list.cut(mark.id);
        self.id = mark.id;
        self.next = mark.next;
    }

    /// The clauses.
    pub(crate) fn list(&self) -> &ClauseList
        ensures list { result.now ≡ self.now.list }
        ensures listed { IsListed self.now }
    {
        &self.list
    }
}
