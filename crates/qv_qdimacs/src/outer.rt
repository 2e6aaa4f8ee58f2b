//! The outer variables of a file.

ghost use Rattle.std.specs.Prelude.{◌≡◌, ◌≤◌, ◌++◌, IfOk, OnOk, is_some, nat_eq, length, take, drop};
ghost use Rattle.std.specs.HashMap.{get};
ghost use Rattle.qv_qdimacs.specs.Outer.{is_existential, leading, rest_of, variables_of};
ghost use Rattle.qv_qdimacs.specs.Outer.{clause_variables, occurring, left_by, put_among};
ghost use Rattle.qv_qdimacs.specs.Outer.{free_of, outer_of};

use crate::files::Quantified;
use crate::places::{places_of, push_variables};
use qv_cnf::{Lit, Packed};
use qv_store::{NoMemory, Quant};
use std::alloc::Global;
use std::collections::{BTreeSet, HashMap};

// How many existential quantifiers stand before the first universal one.
fn leading(prefix: &[Quantified]) -> usize
    ensures within { result ≤ length prefix.now }
    ensures leading { variables_of (take result prefix.now) ≡ leading prefix.now }
    ensures rest { drop result prefix.now ≡ rest_of prefix.now }
{
    'leading: for (n, quantified) in prefix.iter().enumerate() {
        if !is_existential(quantified.quant) {
            return n;
        }
    }
    prefix.len()
}

fn is_existential(quant: Quant) -> bool
    ensures { result ≡ is_existential quant }
{
    match quant {
        Quant::Exists => true,
        Quant::Forall => false,
    }
}

/// The prefix from the first universal quantifier on.
pub(crate) fn rest_of(prefix: &[Quantified]) -> &[Quantified]
    ensures { result.now ≡ rest_of prefix.now }
{
    &prefix[leading(prefix)..]
}

/// The outer variables, in their order.
pub(crate) fn outer_of(
    alloc: Global,
    prefix: &[Quantified],
    clauses: &Packed,
) -> Result<Vec<u32>, NoMemory>
    ensures { IfOk result (λ outer. outer.items ≡ outer_of prefix.now clauses.now) }
{
    let free = free_of(alloc, prefix, clauses)?;
    let mut outer = listed(alloc, &free)?;
    push_variables(&mut outer, &prefix[..leading(prefix)])?;
    Ok(outer)
}

// The keys of a set as a list.
fn listed(alloc: Global, free: &BTreeSet<u32>) -> Result<Vec<u32>, NoMemory>
    ensures { IfOk result (λ list. list.items ≡ free.now.keys) }
{
    let mut list = Vec::with_capacity(alloc, free.len())?;
    'free: for variable in free.iter() {
        list.push(*variable)?;
    }
    Ok(list)
}

// The variables of the clauses that the prefix doesn't quantify.
fn free_of(
    alloc: Global,
    prefix: &[Quantified],
    clauses: &Packed,
) -> Result<BTreeSet<u32>, NoMemory>
    ensures { IfOk result (λ free. free.keys ≡ free_of prefix.now clauses.now) }
{
    let mut variables = Vec::with_capacity(alloc, prefix.len())?;
    push_variables(&mut variables, prefix)?;
    let quantified = places_of(alloc, &variables)?;
    let mut free = BTreeSet::new(alloc);
    add_clauses(&mut free, &quantified, clauses)?;
    Ok(free)
}

// Adds the variables of clauses that aren't quantified.
fn add_clauses(
    free: &mut BTreeSet<u32>,
    quantified: &HashMap<u32, u64>,
    clauses: &Packed,
) -> Result<(), NoMemory>
    ensures { OnOk result (free.new.keys ≡ put_among free.old.keys
        (left_by (λ v. is_some (get nat_eq quantified.now v)) (occurring clauses.now))) }
{
    'clauses: for at in 0..clauses.len() {
        add_clause(free, quantified, clauses.get(at))?;
    }
    Ok(())
}

// Adds those of one.
fn add_clause(
    free: &mut BTreeSet<u32>,
    quantified: &HashMap<u32, u64>,
    clause: &[Lit],
) -> Result<(), NoMemory>
    ensures { OnOk result (free.new.keys ≡ put_among free.old.keys
        (left_by (λ v. is_some (get nat_eq quantified.now v)) (clause_variables clause.now))) }
{
    'lits: for lit in clause {
        let variable = lit.variable();
        if !quantified.contains_key(&variable) {
            free.insert(variable)?;
        }
    }
    Ok(())
}
