//! A file as a term.

ghost use Rattle.std.specs.Prelude.{◌≡◌, IfOk};
ghost use Rattle.qv_store.specs.Nodes.{tree_at};
ghost use Rattle.qv_store.specs.Stores.{AreShared, Grows, StandsAt};
ghost use Rattle.qv_qdimacs.specs.Outer.{outer_of};
ghost use Rattle.qv_qdimacs.specs.Translation.{literal_tree, clause_tree, matrix_tree};
ghost use Rattle.qv_qdimacs.specs.Translation.{bound_from, formula_of};
ghost use Rattle.qv_qdimacs.specs.Formulas.{IsFormulaAt};
ghost use Rattle.qv_qdimacs.specs.Leaves.{leaf_in};

use crate::files::{Qdimacs, Quantified};
use crate::joining::put_joined;
use crate::outer::{outer_of, rest_of};
use crate::places::Places;
use crate::putting::{put_negation, put_quantifier};
use qv_cnf::{Lit, Packed};
use qv_store::{Id, NoMemory, Store};
use std::alloc::Global;

/// The formula of a file, and the variables that its constants are, by their indices.
#[derive(Drop)]
pub struct Translated {
    pub formula: Id,
    pub outer: Vec<u32>,
}

/// Puts the formula of a file into a store. Its constants are the outer variables: those of the
/// clauses that the prefix doesn't quantify, in rising order, and those before the first universal
/// quantifier. Where memory runs out the store may hold further terms.
pub fn translate(alloc: Global, store: &mut Store, file: &Qdimacs) -> Result<Translated, NoMemory>
    ensures formula { IfOk result (λ translated. StandsAt store.new translated.formula
        (formula_of file.now.prefix.items file.now.clauses)) }
    ensures outer { IfOk result (λ translated. translated.outer.items
        ≡ outer_of file.now.prefix.items file.now.clauses) }
    ensures grows { Grows store.old store.new }
    ensures shared { AreShared store.new }
{
    let _few = store.len();
    let outer = outer_of(alloc, &file.prefix, &file.clauses)?;
    let rest = rest_of(&file.prefix);
    let places = Places::of(alloc, &outer, rest)?;
    let matrix = put_matrix(alloc, store, &places, &file.clauses)?;
    let formula = put_prefix(store, rest, matrix)?;
    Ok(Translated { formula, outer })
}

// The conjunction of clauses.
fn put_matrix(
    alloc: Global,
    store: &mut Store,
    places: &Places,
    clauses: &Packed,
) -> Result<Id, NoMemory>
    ensures id { IfOk result (λ id. StandsAt store.new id
        (matrix_tree (leaf_in places.now) clauses.now)) }
    ensures grows { Grows store.old store.new }
    ensures shared { AreShared store.new }
{
    let _few = store.len();
    let mut ids = Vec::with_capacity(alloc, clauses.len())?;
    'clauses: for at in 0..clauses.len() {
        let id = put_clause(alloc, store, places, clauses.get(at))?;
        ids.push(id)?;
    }
    put_joined(alloc, store, true, &ids)
}

// The disjunction of a clause's literals.
fn put_clause(
    alloc: Global,
    store: &mut Store,
    places: &Places,
    clause: &[Lit],
) -> Result<Id, NoMemory>
    ensures id { IfOk result (λ id. StandsAt store.new id
        (clause_tree (leaf_in places.now) clause.now)) }
    ensures grows { Grows store.old store.new }
    ensures shared { AreShared store.new }
{
    let _few = store.len();
    let mut ids = Vec::with_capacity(alloc, clause.len())?;
    'lits: for lit in clause {
        let id = put_literal(alloc, store, places, *lit)?;
        ids.push(id)?;
    }
    put_joined(alloc, store, false, &ids)
}

// A literal.
fn put_literal(alloc: Global, store: &mut Store, places: &Places, lit: Lit) -> Result<Id, NoMemory>
    ensures id { IfOk result (λ id. StandsAt store.new id
        (literal_tree (leaf_in places.now) lit)) }
    ensures grows { Grows store.old store.new }
    ensures shared { AreShared store.new }
{
    let leaf = places.put(store, lit.variable())?;
    if lit.is_positive() {
        return Ok(leaf);
    }
    put_negation(alloc, store, leaf)
}

// A formula below the quantifiers of a prefix.
fn put_prefix(store: &mut Store, prefix: &[Quantified], body: Id) -> Result<Id, NoMemory>
    requires { IsFormulaAt store.old body }
    ensures id { IfOk result (λ id. StandsAt store.new id
        (bound_from 0 prefix.now (tree_at store.old body))) }
    ensures grows { Grows store.old store.new }
    ensures shared { AreShared store.new }
{
    let _few = store.len();
    let mut level = prefix.len();
    let mut formula = body;
    'levels: while level > 0 {
        level -= 1;
        let quantified = prefix[level];
        formula = put_quantifier(store, quantified.quant, level as u64, formula)?;
    }
    Ok(formula)
}
