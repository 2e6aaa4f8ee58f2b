//! Circuits behind the clauses of a list.

ghost use Rattle.std.specs.Prelude.{◌≡◌, ◌+◌, ◌≤◌, ◌<◌, ◌^◌, Err, IfOk, OnOk, OnErr, length, map};
ghost use Rattle.qv_words.specs.Sort.{width_of};
ghost use Rattle.qv_words.specs.Gate.{positive_lit};
ghost use Rattle.qv_words.specs.Clauses.{variables_from};
ghost use Rattle.qv_words.specs.OpCircuit.{op_circuit};
ghost use Rattle.qv_cnf.specs.Listing.{next_id};
ghost use Rattle.qv_circuits.specs.Adding.{lit_of, lits_of};
ghost use Rattle.qv_circuits.specs.Fitting.{Adds, FitsRank};

use crate::sizes::size_of;
use qv_circuits::{CircuitFault, Encoder};
use qv_cnf::{ClauseList, Lit};
use qv_words::{Op, Sort};
use std::alloc::{AllocError, Global};
use std::mem;

/// Adds the clauses of an operator's circuit at the bits of its arguments, low bit first, and gives
/// the bits of the result. Variables are taken from the next one on, and ids from the next one on.
/// After a fault everything is as before.
pub fn build(
    alloc: Global,
    op: Op,
    args: &[&[Lit]],
    next: &mut u32,
    limit: u32,
    id: &mut u64,
    out: &mut ClauseList,
) -> Result<Vec<Lit>, CircuitFault>
    requires fits { FitsRank op (map (λ v. lits_of v.now) args.now) }
    requires most { limit ≤ 2 ^ 30 }
    requires some { 1 ≤ next.old }
    requires within { next.old ≤ limit + 1 }
    requires above { next_id out.old.given ≤ id.old }
    requires ids { id.old ≤ 2 ^ 62 }
    ensures result { IfOk result (λ bits. lits_of bits.items ≡
        (op_circuit op (map (λ v. lits_of v.now) args.now) next.old).result) }
    ensures added { OnOk result (Adds
        (op_circuit op (map (λ v. lits_of v.now) args.now) next.old)
        next.old id.old next.new id.new out.old out.new) }

    // No variable over the limit is taken, and that fault comes only where one is wanted.
    ensures within { OnOk result (next.new ≤ limit + 1) }
    ensures over { result ≡ Err CircuitFault.TooManyVariables → limit + 1 <
        next.old + length (op_circuit op (map (λ v. lits_of v.now) args.now) next.old).gates }
    ensures next_stays { OnErr result (next.new ≡ next.old) }
    ensures id_stays { OnErr result (id.new ≡ id.old) }
    ensures list_stays { OnErr result (out.new ≡ out.old) }
{
    let size = size_of(op, last_width(args));
    out.reserve(size.clauses, size.lits)?;
    let may = out.may_add(*id);
    prove!(may);
    let list = mem::replace(out, ClauseList::new(alloc));
    let mut encoder = Encoder::new(alloc, list, *next, limit, *id);
    match encoder.operator(op, args) {
        Ok(bits) => {
            let (list, next_variable, next_id) = encoder.finish();
            *out = list;
            *next = next_variable;
            *id = next_id;
            Ok(bits)
        }
        Err(fault) => {
            *out = encoder.undo();
            Err(fault)
        }
    }
}

// How many bits the last argument has.
fn last_width(args: &[&[Lit]]) -> usize {
    match args {
        [] => 0,
        [.., last] => last.len(),
    }
}

/// Takes new variables for the bits of a sort, low bit first. After a fault the next variable is as
/// before.
pub fn fresh(
    alloc: Global,
    sort: Sort,
    next: &mut u32,
    limit: u32,
) -> Result<Vec<Lit>, CircuitFault>
    requires most { limit ≤ 2 ^ 30 }
    requires some { 1 ≤ next.old }
    requires within { next.old ≤ limit + 1 }
    ensures result { IfOk result (λ bits.
        lits_of bits.items ≡ variables_from next.old (width_of sort)) }
    ensures next { OnOk result (next.new ≡ next.old + width_of sort) }

    // That fault comes exactly where a variable over the limit is wanted.
    ensures within { OnOk result (next.new ≤ limit + 1) }
    ensures over { result ≡ Err CircuitFault.TooManyVariables →
        limit + 1 < next.old + width_of sort }
    ensures stays { OnErr result (next.new ≡ next.old) }
{
    let width = sort.width() as u32;
    if width > limit + 1 - *next {
        return Err(CircuitFault::TooManyVariables);
    }
    let bits = variables(alloc, *next, width)?;
    *next += width;
    Ok(bits)
}

// So many variables from this one on.
fn variables(alloc: Global, first: u32, count: u32) -> Result<Vec<Lit>, AllocError>
    requires some { 1 ≤ first }
    requires most { first + count ≤ 2 ^ 30 + 1 }
    ensures { IfOk result (λ bits. lits_of bits.items ≡ variables_from first count) }
{
    let mut bits = Vec::with_capacity(alloc, count as usize)?;
    'variables: for i in 0..count {
        bits.push(variable(first + i))?;
    }
    Ok(bits)
}

fn variable(number: u32) -> Lit
    requires some { 1 ≤ number }
    requires most { number ≤ 2 ^ 30 }
    ensures { lit_of result ≡ positive_lit number }
{
    Lit::new(number as i32).unwrap()
}
