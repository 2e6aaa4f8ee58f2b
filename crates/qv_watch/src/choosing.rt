//! Which literals a new clause watches.

ghost use Rattle.std.specs.Prelude.{◌≡◌, ◌<◌, ◌↔◌, ◌^◌, true, Some, None, IfSome, IsTrue};
ghost use Rattle.qv_watch.specs.Choosing.{level_at, rank_of, HasNoOther, IsBest, IsChosen, Rests};
ghost use Rattle.qv_watch.specs.Entries.{value_of};

use super::values::Values;
use super::watches::Pair;
use qv_cnf::Lit;

// What a clause that is at rest watches: two literals, or none, as one of its literals is true
// since level 0.
#[derive(Clone, Copy, Debug, PartialEq, Eq)]
pub(crate) enum Choice {
    Settled,
    Watching(Pair),
}

// The two best literals may be watched where the clause is at rest at each level.
pub(crate) fn choose(lits: &[Lit], values: &Values) -> Choice
    requires { Rests values.now.entries lits.now }
    ensures { IsChosen values.now.entries lits.now result }
{
    let Some(first) = best(lits, None, values) else {
        unreachable!();
    };
    if is_settled(first, values) {
        return Choice::Settled;
    }
    let Some(second) = best(lits, Some(first), values) else {
        unreachable!();
    };
    Choice::Watching(Pair {
        first,
        second,
        third: first,
        fourth: second,
    })
}

// Whether the literal is true since level 0.
fn is_settled(lit: Lit, values: &Values) -> bool
    ensures { IsTrue result ↔ ((value_of values.now.entries lit ≡ Some true) ×
        (level_at values.now.entries lit ≡ 0)) }
{
    values.value(lit) == Some(true) && values.level_of(lit) == 0
}

// The first literal of the greatest rank, but for that one.
fn best(lits: &[Lit], but: Option<Lit>, values: &Values) -> Option<Lit>
    ensures some { IfSome result (IsBest values.now.entries lits.now but) }
    ensures none { result ≡ None → HasNoOther lits.now but }
{
    let mut found = None;
    let mut most = 0u64;
    for lit in lits {
        if but == Some(*lit) {
            continue;
        }
        let rank = rank(*lit, values);
        if rank > most {
            found = Some(*lit);
            most = rank;
        }
    }
    found
}

fn rank(lit: Lit, values: &Values) -> u64
    ensures rank { result ≡ rank_of values.now.entries lit }
    ensures low { level_at values.now.entries lit < 2 ^ 32 }
{
    let level = u64::from(values.level_of(lit));
    match values.value(lit) {
        Some(true) => (1 << 32) + 2 + 1u64.saturating_sub(level),
        None => (1 << 32) + 1,
        Some(false) => level + 1,
    }
}
