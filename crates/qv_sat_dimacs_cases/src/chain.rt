//! A trail along many clauses of two literals.

ghost use Rattle.std.specs.Prelude.{◌≡◌, ◌+◌, ◌*◌, ◌<◌, ◌≤◌, ◌^◌, if◌then◌else◌};

use qv_cnf::Lit;
use qv_watch::{Propagated, Trail};
use std::alloc::Global;

// No chain is longer.
const LONGEST: u32 = 1 << 28;

/// How many literals are true in the end, where each second variable is true if the one before it
/// is, and those before are assumed one after another; none where propagation isn't quiet.
pub(crate) fn walked(alloc: Global, pairs: u32) -> Option<usize> {
    if pairs > LONGEST {
        return None;
    }
    let mut trail = Trail::new(alloc);
    walk(&mut trail, pairs)
}

fn walk(trail: &mut Trail, pairs: u32) -> Option<usize>
    requires { pairs ≤ 2 ^ 28 }
{
    trail.room(2 * pairs).ok()?;
    'attaching: for pair in 0..pairs {
        attach(trail, pair)?;
    }
    'assuming: for pair in 0..pairs {
        assume(trail, pair)?;
    }
    settle(trail)?;
    Some(trail.order().len())
}

// The first literal of a pair, or the second.
fn literal(pair: u32, second: bool) -> Lit
    requires { pair < 2 ^ 28 }
    ensures { result.variable ≡ 2 * pair + (if second then 2 else 1) }
{
    let number = 2 * pair as i32 + if second { 2 } else { 1 };
    Lit::new(number).unwrap()
}

// The first of a pair implies the second.
fn attach(trail: &mut Trail, pair: u32) -> Option<()>
    requires few { pair < 2 ^ 28 }
    requires has_room { 2 * pair + 2 ≤ trail.old.room }
    ensures { trail.new.room ≡ trail.old.room }
{
    let id = u64::from(pair) + 1;
    if trail.clause(id).is_some() || trail.level() > 0 {
        return None;
    }
    let lits = [literal(pair, false).negated(), literal(pair, true)];
    trail.attach(id, &lits).ok()
}

// Assumes the first of a pair.
fn assume(trail: &mut Trail, pair: u32) -> Option<()>
    requires few { pair < 2 ^ 28 }
    requires has_room { 2 * pair + 2 ≤ trail.old.room }
    ensures { trail.new.room ≡ trail.old.room }
{
    let lit = literal(pair, false);
    if trail.propagate() != Propagated::Quiet || trail.value(lit).is_some() {
        return None;
    }
    trail.assume(lit);
    Some(())
}

fn settle(trail: &mut Trail) -> Option<()> {
    match trail.propagate() {
        Propagated::Quiet => Some(()),
        Propagated::Conflict { .. } => None,
    }
}
