//! Circuits of operators.

ghost use Rattle.std.specs.Prelude.{◌≡◌, ◌≤◌, ◌^◌, ◌+◌, OnOk, All, map};
ghost use Rattle.qv_words.specs.Sort.{IsLawful};
ghost use Rattle.qv_circuits.specs.Adding.{lits_of};
ghost use Rattle.qv_circuits.specs.Fitting.{FitsRank};

use crate::asking::{fits, is_next};
use crate::parsing::{lists, operator, sort, sorts};
use crate::printing::{say_clauses, say_literals};
use qv_blast::{CircuitFault, build, fresh, size_of};
use qv_cases_rows::{Answer, Words};
use qv_cnf::{ClauseList, Lit};
use qv_words::{Op, Sort, result_sort};
use std::alloc::Global;

/// What is asked of an operator.
#[derive(Clone, Copy)]
pub enum Question {
    Circuit,
    Limited,
    At,
    Fresh,
    Size,
}

/// Says a circuit, new variables, or how large a circuit is.
pub fn say_answer(alloc: Global, question: Question, words: &mut Words<'_>, out: &mut Answer) {
    match question {
        Question::Circuit => circuit(alloc, Lit::MAX_VARIABLE, words, out),
        Question::Limited => limited(alloc, words, out),
        Question::At => at(alloc, words, out),
        Question::Fresh => new_variables(alloc, words, out),
        Question::Size => size(alloc, words, out),
    }
}

// `limited LIMIT OPERATOR SORTS`
fn limited(alloc: Global, words: &mut Words<'_>, out: &mut Answer) {
    let limit = words.number();
    circuit(alloc, limit, words, out);
}

// `circuit OPERATOR SORTS`, at variables from 2 on as the bits of the arguments
fn circuit(alloc: Global, limit: u32, words: &mut Words<'_>, out: &mut Answer) {
    let op = operator(alloc, words.next());
    let sorts = sorts(alloc, words.rest());
    match (op, sorts) {
        (Some(op), Some(sorts)) if result_sort(op, &sorts).is_some() => {
            circuit_of(alloc, limit, op, &sorts, out)
        }
        _ => out.refuse(),
    }
}

fn circuit_of(alloc: Global, limit: u32, op: Op, sorts: &[Sort], out: &mut Answer)
    requires { All IsLawful sorts.now }
{
    let mut next = 2;
    match arguments(alloc, sorts, &mut next) {
        Some(args) => try_circuit(alloc, limit, op, sorts, &args, next, out),
        None => out.refuse(),
    }
}

// New variables from 2 on for the bits of each sort.
fn arguments(alloc: Global, sorts: &[Sort], next: &mut u32) -> Option<Vec<Vec<Lit>>>
    requires { next.old ≡ 2 }
{
    let mut args = Vec::new(alloc);
    'sorts: for sort in sorts {
        args.push(fresh(alloc, *sort, next, Lit::MAX_VARIABLE).ok()?)
            .ok()?;
    }
    Some(args)
}

// `at OPERATOR NEXT SORTS/LITERALS/LITERALS..`, at these literals as the bits of the arguments
fn at(alloc: Global, words: &mut Words<'_>, out: &mut Answer) {
    let op = operator(alloc, words.next());
    let next = words.number();
    match (op, words.rest().split_once('/')) {
        (Some(op), Some((of, given))) => at_literals(alloc, op, next, of, given, out),
        _ => out.refuse(),
    }
}

fn at_literals(alloc: Global, op: Op, next: u32, of: &str, given: &str, out: &mut Answer) {
    match (sorts(alloc, of), lists(alloc, given)) {
        (Some(sorts), Some(args)) => {
            try_circuit(alloc, Lit::MAX_VARIABLE, op, &sorts, &args, next, out)
        }
        _ => out.refuse(),
    }
}

// `fresh LIMIT NEXT SORT`
fn new_variables(alloc: Global, words: &mut Words<'_>, out: &mut Answer) {
    let limit = words.number();
    let next = words.number();
    match sort(words.next()) {
        Some(sort) if is_next(next, limit) => say_fresh(alloc, sort, next, limit, out),
        _ => out.refuse(),
    }
}

fn say_fresh(alloc: Global, sort: Sort, next: u32, limit: u32, out: &mut Answer)
    requires most { limit ≤ 2 ^ 30 }
    requires some { 1 ≤ next }
    requires within { next ≤ limit + 1 }
{
    let mut next = next;
    say_bits(out, fresh(alloc, sort, &mut next, limit));
    say_next(out, next);
}

// `size OPERATOR SORTS`
fn size(alloc: Global, words: &mut Words<'_>, out: &mut Answer) {
    let op = operator(alloc, words.next());
    let sorts = sorts(alloc, words.rest());
    match (op, sorts) {
        (Some(op), Some(sorts)) => say_size(op, sorts.last(), out),
        _ => out.refuse(),
    }
}

fn say_size(op: Op, last: Option<&Sort>, out: &mut Answer) {
    match last {
        Some(sort) => {
            let size = size_of(op, sort.width() as usize);
            out.show(size.clauses);
            out.put(' ');
            out.show(size.lits);
        }
        None => out.refuse(),
    }
}

// The circuit of an operator at these literals, if it may be asked for.
fn try_circuit(
    alloc: Global,
    limit: u32,
    op: Op,
    sorts: &[Sort],
    args: &[Vec<Lit>],
    next: u32,
    out: &mut Answer,
)
    requires { All IsLawful sorts.now }
{
    match slices(alloc, args) {
        Some(args) if is_next(next, limit) && fits(op, sorts, &args) => {
            say_circuit(alloc, limit, op, &args, next, out)
        }
        _ => out.refuse(),
    }
}

// The literals of each argument.
fn slices<'a>(alloc: Global, args: &'a [Vec<Lit>]) -> Option<Vec<&'a [Lit]>> {
    let mut slices = Vec::with_capacity(alloc, args.len()).ok()?;
    for arg in args {
        slices.push(arg.as_slice()).ok()?;
    }
    Some(slices)
}

// Says the bits of the result and the clause list that then stands.
fn say_circuit(alloc: Global, limit: u32, op: Op, args: &[&[Lit]], next: u32, out: &mut Answer)
    requires most { limit ≤ 2 ^ 30 }
    requires fits { FitsRank op (map (λ v. lits_of v.now) args.now) }
    requires some { 1 ≤ next }
    requires within { next ≤ limit + 1 }
{
    let mut list = ClauseList::new(alloc);
    if list.add(1, &[Lit::default()]).is_err() {
        out.refuse();
        return;
    }
    let mut next = next;
    let mut id = 2;
    say_bits(
        out,
        build(alloc, op, args, &mut next, limit, &mut id, &mut list),
    );
    say_next(out, next);
    say_clauses(out, &list, 2, id);
}

// The literals of an argument or a result, or what was in their way.
fn say_bits(out: &mut Answer, made: Result<Vec<Lit>, CircuitFault>) {
    match made {
        Ok(bits) => say_literals(out, &bits),
        Err(CircuitFault::TooManyVariables) => out.say(" too many"),
        Err(CircuitFault::NoMemory) => out.refuse(),
    }
}

fn say_next(out: &mut Answer, next: u32) {
    out.say("; ");
    out.show(next);
}
