//! What each case is answered.

ghost use Rattle.std.specs.Prelude.{◌≤◌, ◌^◌, IfSome};
ghost use Rattle.std.specs.Bool.{OnTrue};
ghost use Rattle.qv_blast.specs.States.{IsBlaster};

use crate::circuits::{Question, say_answer};
use crate::printing::{FEW, START, say_clauses, say_literals, with_clause};
use qv_blast::{BlastFault, Blaster};
use qv_cases_rows::{Answer, Cases, Words};
use qv_cases_terms::{is_plain, term, terms};
use qv_cnf::Lit;
use qv_store::{Id, Store};
use std::alloc::Global;

enum Call {
    List,
    Grow,
    Many,
    Circuits(Question),
}

static CALLS: [(&str, Call); 8] = [
    ("list", Call::List),
    ("grow", Call::Grow),
    ("many", Call::Many),
    ("circuit", Call::Circuits(Question::Circuit)),
    ("limited", Call::Circuits(Question::Limited)),
    ("at", Call::Circuits(Question::At)),
    ("fresh", Call::Circuits(Question::Fresh)),
    ("size", Call::Circuits(Question::Size)),
];

/// The cases have no state.
#[derive(Clone, Copy)]
pub struct BlastCases {
    pub alloc: Global,
}

impl Cases for BlastCases {
    fn answer(&mut self, words: &mut Words<'_>, out: &mut Answer) {
        let mut store = Store::new(self.alloc);
        match words.pick(&CALLS) {
            Some(Call::List) => list(self.alloc, &mut store, words, out),
            Some(Call::Grow) => grow(self.alloc, &mut store, words, out),
            Some(Call::Many) => many(self.alloc, &mut store, words, out),
            Some(Call::Circuits(question)) => say_answer(self.alloc, *question, words, out),
            None => out.refuse(),
        }
    }
}

// `list LIMIT TERM;TERM;..`, of one term or more: the ids of the clauses that came for each formula
// in turn, the bits of each term of the store, and the clauses
fn list(alloc: Global, store: &mut Store, words: &mut Words<'_>, out: &mut Answer) {
    let limit = words.number();
    if words.is_empty() {
        out.refuse();
    }
    match terms(alloc, store, words.rest()) {
        Some(ids) => list_under(alloc, store, limit, &ids, true, out),
        None => out.refuse(),
    }
}

// The same of these terms, or only what clauses there are in the end.
fn list_under(
    alloc: Global,
    store: &Store,
    limit: u32,
    ids: &[Id],
    is_whole: bool,
    out: &mut Answer,
) {
    match started(alloc, store, limit) {
        Some(mut blaster) => list_by(alloc, store, &mut blaster, ids, is_whole, out),
        None => out.refuse(),
    }
}

fn list_by(
    alloc: Global,
    store: &Store,
    blaster: &mut Blaster,
    ids: &[Id],
    is_whole: bool,
    out: &mut Answer,
)
    requires { IsBlaster store.now blaster.old }
{
    if is_whole {
        assert_all(store, blaster, ids, out);
        say_state(store, blaster, out);
    } else {
        assert_all(store, blaster, ids, &mut Answer::new(alloc));
        say_clauses(out, blaster.clauses(), 1, end_of(blaster));
    }
}

// `grow LIMIT TERM;TERM;..`: the same, where each term is put when those before are asserted
fn grow(alloc: Global, store: &mut Store, words: &mut Words<'_>, out: &mut Answer) {
    match started(alloc, store, words.number()) {
        Some(mut blaster) => grow_by(alloc, store, &mut blaster, words.rest(), out),
        None => out.refuse(),
    }
}

fn grow_by(alloc: Global, store: &mut Store, blaster: &mut Blaster, text: &str, out: &mut Answer)
    requires { IsBlaster store.old blaster.old }
{
    if assert_in_turn(alloc, store, blaster, text, out) {
        say_state(store, blaster, out);
    } else {
        out.refuse();
    }
}

fn assert_in_turn(
    alloc: Global,
    store: &mut Store,
    blaster: &mut Blaster,
    text: &str,
    out: &mut Answer,
) -> bool
    requires { IsBlaster store.old blaster.old }
    ensures { OnTrue result (IsBlaster store.new blaster.new) }
{
    'parts: for part in text.split(';') {
        if !put_and_assert(alloc, store, blaster, part, out) {
            return false;
        }
    }
    true
}

fn put_and_assert(
    alloc: Global,
    store: &mut Store,
    blaster: &mut Blaster,
    text: &str,
    out: &mut Answer,
) -> bool
    requires { IsBlaster store.old blaster.old }
    ensures { OnTrue result (IsBlaster store.new blaster.new) }
{
    match term(alloc, store, text) {
        Some(id) => {
            assert_one(store, blaster, id, out);
            true
        }
        None => false,
    }
}

// `many COUNT OPERATOR WIDTH`: as many equations `(= (OPERATOR a b) c)`, each with variables of its
// own, and the number of clauses with a checksum
fn many(alloc: Global, store: &mut Store, words: &mut Words<'_>, out: &mut Answer) {
    let count = words.number();
    let op = words.next();
    let width = words.next();
    match equations(alloc, store, count, op, width) {
        Some(ids) => list_under(alloc, store, Lit::MAX_VARIABLE, &ids, false, out),
        None => out.refuse(),
    }
}

fn equations(
    alloc: Global,
    store: &mut Store,
    count: u64,
    op: &str,
    width: &str,
) -> Option<Vec<Id>> {
    let mut ids = Vec::new(alloc);
    for number in 0..count {
        ids.push(equation(alloc, store, number, op, width)?).ok()?;
    }
    Some(ids)
}

fn equation(alloc: Global, store: &mut Store, number: u64, op: &str, width: &str) -> Option<Id> {
    let level = number.saturating_mul(3);
    let mut text = Answer::new(alloc);
    say_variable(&mut text, level, width);
    say_variable(&mut text, level.saturating_add(1), width);
    text.say(op);
    text.put(' ');
    say_variable(&mut text, level.saturating_add(2), width);
    text.put('=');
    term(alloc, store, text.line(alloc, true).ok()?.as_str())
}

// A variable, with a blank behind.
fn say_variable(text: &mut Answer, level: u64, width: &str) {
    text.put('v');
    text.show(level);
    text.put(':');
    text.say(width);
    text.put(' ');
}

// A blaster without formulas, if there may be one under this limit of variables.
fn started(alloc: Global, store: &Store, limit: u32) -> Option<Blaster>
    ensures { IfSome result (λ b. IsBlaster store.now b) }
{
    if limit >= 1 && limit <= Lit::MAX_VARIABLE {
        new_blaster(alloc, store, limit)
    } else {
        None
    }
}

fn new_blaster(alloc: Global, store: &Store, limit: u32) -> Option<Blaster>
    requires some { 1 ≤ limit }
    requires most { limit ≤ 2 ^ 30 }
    ensures { IfSome result (λ b. IsBlaster store.now b) }
{
    let _count = store.len();
    Blaster::new(alloc, limit).ok()
}

// Asserts each formula in turn.
fn assert_all(store: &Store, blaster: &mut Blaster, ids: &[Id], out: &mut Answer)
    requires { IsBlaster store.now blaster.old }
    ensures { IsBlaster store.now blaster.new }
{
    'ids: for id in ids {
        assert_one(store, blaster, *id, out);
    }
}

fn assert_one(store: &Store, blaster: &mut Blaster, id: Id, out: &mut Answer)
    requires { IsBlaster store.now blaster.old }
    ensures { IsBlaster store.now blaster.new }
{
    if is_plain(store, id) {
        match blaster.assert(store, id) {
            Ok(added) => say_added(out, added.first, added.end),
            Err(BlastFault::TooManyVariables) => out.say(" too many"),
            Err(BlastFault::NoMemory) => out.refuse(),
        }
    } else {
        out.refuse();
    }
}

fn say_added(out: &mut Answer, first: u64, end: u64) {
    out.put(' ');
    out.show(first);
    out.put('-');
    out.show(end);
}

// Says the bits of each term, and the clauses, or checksums where there are many.
fn say_state(store: &Store, blaster: &Blaster, out: &mut Answer)
    requires { IsBlaster store.now blaster.now }
{
    let end = end_of(blaster);
    if end > FEW {
        out.say("; ");
        out.hex(u128::from(bits_sum(store, blaster)));
    } else {
        say_bits(store, blaster, out);
    }
    say_clauses(out, blaster.clauses(), 1, end);
}

// Says the bits of each term, `-` where it has none.
fn say_bits(store: &Store, blaster: &Blaster, out: &mut Answer)
    requires { IsBlaster store.now blaster.now }
{
    for number in 0..store.len() {
        out.say("; #");
        match blaster.bits(store, store.id_at(number)) {
            Some(lits) => say_literals(out, lits),
            None => out.say(" -"),
        }
    }
}

// A checksum of the bits of all terms, with 1 behind those of each.
fn bits_sum(store: &Store, blaster: &Blaster) -> u64
    requires { IsBlaster store.now blaster.now }
{
    let mut sum = START;
    for number in 0..store.len() {
        let lits = blaster.bits(store, store.id_at(number)).unwrap_or(&[]);
        sum = with_clause(sum, lits);
    }
    sum
}

// The id behind those of the clauses.
fn end_of(blaster: &Blaster) -> u64 {
    let list = blaster.clauses();
    for id in 1..MOST {
        if list.get(id).is_none() {
            return id;
        }
    }
    MOST
}

const MOST: u64 = 1 << 40;
