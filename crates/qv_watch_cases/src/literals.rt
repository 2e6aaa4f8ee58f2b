//! Literals, clauses and a counter by themselves.

ghost use Rattle.std.specs.Prelude.{◌≡◌, ◌^◌, ◌<◌, [], ◌∷◌, pos, negsuc, IfOk};
ghost use Rattle.qv_cnf.specs.Literal.{literal_of};

use crate::lits::{literal, say_all};
use qv_cases_rows::{Answer, Words};
use qv_cnf::{Budget, Clause, ClauseList, Counter, Lit, Spent};
use std::alloc::{AllocError, Global};

/// What a number names.
pub(crate) fn named(words: &mut Words<'_>, out: &mut Answer) {
    match Lit::new(words.number()) {
        None => out.say("none"),
        Some(lit) => describe(lit, out),
    }
}

pub(crate) fn describe(lit: Lit, out: &mut Answer) {
    out.show(lit.number());
    out.say(", variable ");
    out.show(lit.variable());
    out.say(if lit.is_positive() {
        ", positive"
    } else {
        ", negative"
    });
    out.say(", negated ");
    out.show(lit.negated().number());
    out.say(", index ");
    out.show(lit.index());
}

/// A clause that takes one literal after another, and whether they stand inline.
pub(crate) fn clause(alloc: Global, words: &mut Words<'_>, out: &mut Answer) {
    let lits = words.each(alloc, literal);
    let mut clause: Clause = Clause::new(alloc);
    fill(&mut clause, &lits, out);
}

fn fill(clause: &mut Clause, lits: &[Lit], out: &mut Answer) {
    for lit in lits {
        if clause.push(*lit).is_err() {
            out.refuse();
        }
    }
    say_all(out, clause.as_slice());
    out.say(if clause.spilled() {
        ", spilled"
    } else {
        ", inline"
    });
}

/// A counter with this limit is asked once to charge for the empty clause, which follows from 1 and
/// -1.
pub(crate) fn charge(alloc: Global, words: &mut Words<'_>, out: &mut Answer) {
    let limit = words.number::<u64>();
    match Lit::new(1) {
        Some(lit) if limit < 1 << 60 => say_charged(charged_once(alloc, limit, lit), out),
        _ => out.refuse(),
    }
}

fn say_charged(charged: Option<(&'static str, u64)>, out: &mut Answer) {
    match charged {
        Some((word, count)) => {
            out.say(word);
            out.say(", count ");
            out.show(count);
        }
        None => out.refuse(),
    }
}

fn charged_once(alloc: Global, limit: u64, lit: Lit) -> Option<(&'static str, u64)>
    requires lit { lit ≡ literal_of (pos 1) }
    requires limit { limit < 2 ^ 60 }
{
    match opposites(alloc, lit) {
        Ok(base) => charged_over(alloc, &base, limit, lit),
        Err(_) => None,
    }
}

fn charged_over(
    alloc: Global,
    base: &ClauseList,
    limit: u64,
    lit: Lit,
) -> Option<(&'static str, u64)>
    requires base { base.now.live
        ≡ record { id = 1; lits = literal_of (pos 1) ∷ [] } ∷ record {
          id = 2;
          lits = literal_of (negsuc 0) ∷ [];
        } ∷ [] }
    requires lit { lit ≡ literal_of (pos 1) }
    requires limit { limit < 2 ^ 60 }
{
    match opposites(alloc, lit) {
        Ok(list) => {
            let mut counter = Counter::new(list, limit);
            let word = match charge_one(&mut counter, base) {
                Ok(()) => "charged",
                Err(Spent) => "spent",
            };
            Some((word, counter.count()))
        }
        Err(_) => None,
    }
}

fn opposites(alloc: Global, lit: Lit) -> Result<ClauseList, AllocError>
    requires { lit ≡ literal_of (pos 1) }
    ensures { IfOk result
        (λ list. list.live
        ≡ record { id = 1; lits = literal_of (pos 1) ∷ [] } ∷ record {
          id = 2;
          lits = literal_of (negsuc 0) ∷ [];
        } ∷ []) }
{
    let mut list = ClauseList::new(alloc);
    list.add(1, &[lit])?;
    list.add(2, &[lit.negated()])?;
    Ok(list)
}

fn charge_one(counter: &mut Counter, base: &ClauseList) -> Result<(), Spent>
    requires base { base.now.live
        ≡ record { id = 1; lits = literal_of (pos 1) ∷ [] } ∷ record {
          id = 2;
          lits = literal_of (negsuc 0) ∷ [];
        } ∷ [] }
    requires counter { counter.old.base
        ≡ (literal_of (pos 1) ∷ []) ∷ (literal_of (negsuc 0) ∷ []) ∷ [] }
    requires count { counter.old.count ≡ 0 }
{
    counter.conflict(base, &[], 3, &[], &[1, 2])
}
