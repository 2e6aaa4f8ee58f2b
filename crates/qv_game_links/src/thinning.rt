//! Links that are left out.

ghost use Rattle.std.specs.Prelude.{◌≡◌, ◌⊎◌, All, IfOk, IsTrue, OnOk, map};
ghost use Rattle.std.specs.Prelude.{IsPermutation};
ghost use Rattle.std.specs.List.{Any};
ghost use Rattle.qv_game_links.specs.Thinning.{AreKept, AreThinned, IsConsidered, IsFormula};
ghost use Rattle.qv_game_links.specs.Thinning.{IsFormulaAt};
ghost use Rattle.qv_game_links.specs.Thinning.{Denies, Follow, IsSame};

use crate::saying::{Statement, statements};
use qv_entries::Entries;
use qv_store::{Id, Store};
use std::alloc::{AllocError, Global};

// Longer lists stay as they are: to look through them takes longer than it saves.
const MOST_LINKS: usize = 1024;

// So many of the kept links are tried for whether they cover another.
const MOST_TRIED: usize = 16;

/// An entry that stays linked, and what its region says.
#[derive(Drop)]
pub struct Kept {
    number: u64,
    said: Vec<Statement>,
}

/// Those of a forced entry's links that are enough for its region, or all of them.
pub fn thin(
    alloc: Global,
    store: &Store,
    region: Id,
    entries: &Entries,
    links: Vec<u64>,
) -> Result<Vec<u64>, AllocError>
    requires region { IsFormula store.now region }
    requires links { All (IsFormulaAt store.now entries.now) links.items }
    ensures { IfOk result (λ fewer.
        AreThinned store.now region entries.now links.items fewer.items) }
{
    if links.len() > MOST_LINKS {
        return Ok(links);
    }
    let known = statements(alloc, store, region)?;
    let kept = kept_of(alloc, store, &known, entries, &links)?;
    if !are_named(&known, &kept) {
        return Ok(links);
    }
    let fewer = numbers_of(alloc, &kept)?;
    Ok(fewer)
}

// The links that are needed beside later ones, the last one first.
fn kept_of(
    alloc: Global,
    store: &Store,
    known: &[Statement],
    entries: &Entries,
    links: &[u64],
) -> Result<Vec<Kept>, AllocError>
    requires links { All (IsFormulaAt store.now entries.now) links.now }
    ensures { IfOk result (λ kept.
        AreKept store.now known.now entries.now links.now 0 kept.items) }
{
    let mut kept = Vec::new(alloc);
    let mut left = links.len();
    'links: while left > 0 {
        left -= 1;
        consider(alloc, store, known, entries, links[left], &mut kept)?;
    }
    Ok(kept)
}

// Keeps a link, unless its region denies what is known or is covered by that of a kept one.
fn consider(
    alloc: Global,
    store: &Store,
    known: &[Statement],
    entries: &Entries,
    number: u64,
    kept: &mut Vec<Kept>,
) -> Result<(), AllocError>
    requires { IsFormulaAt store.now entries.now number }
    ensures { OnOk result (IsConsidered store.now known.now entries.now number
        kept.old.items kept.new.items) }
{
    let said = statements(alloc, store, entries.entry(number).region)?;
    if is_met(known, kept, &said) {
        return Ok(());
    }
    kept.push(Kept { number, said })?;
    Ok(())
}

// Whether what a region says is denied by what is known, or covered by a kept link's region.
fn is_met(known: &[Statement], kept: &[Kept], said: &[Statement]) -> bool
    ensures { IsTrue result → Any (λ s. Any (Denies s) known.now) said.now
        ⊎ Any (λ k. Follow known.now said.now k.said.items) kept.now }
{
    are_denied(known, said) || is_covered(known, kept, said)
}

// Whether one of some statements is denied by what is known.
fn are_denied(known: &[Statement], said: &[Statement]) -> bool
    ensures { IsTrue result → Any (λ s. Any (Denies s) known.now) said.now }
{
    said.iter().any(|statement| is_denied(known, *statement))
}

// Whether another value of a statement's term is known.
fn is_denied(known: &[Statement], statement: Statement) -> bool
    ensures { IsTrue result → Any (Denies statement) known.now }
{
    known.iter().any(|other| other.id == statement.id && other.value != statement.value)
}

// Whether all that the region of one of the first kept links says is known or said.
fn is_covered(known: &[Statement], kept: &[Kept], said: &[Statement]) -> bool
    ensures { IsTrue result → Any (λ k. Follow known.now said.now k.said.items) kept.now }
{
    let tried = kept.len().min(MOST_TRIED);
    has_general(known, &kept[..tried], said)
}

// Whether all that a kept link's region says is known or said.
fn has_general(known: &[Statement], kept: &[Kept], said: &[Statement]) -> bool
    ensures { IsTrue result → Any (λ k. Follow known.now said.now k.said.items) kept.now }
{
    'kept: for link in kept {
        if is_general(known, link, said) {
            return true;
        }
    }
    false
}

// Whether all that this link's region says is known or said.
fn is_general(known: &[Statement], link: &Kept, said: &[Statement]) -> bool
    ensures { IsTrue result → Follow known.now said.now link.now.said.items }
{
    follow(known, said, &link.said)
}

// Whether each of some statements is known or said.
fn follow(known: &[Statement], said: &[Statement], more: &[Statement]) -> bool
    ensures { IsTrue result → Follow known.now said.now more.now }
{
    'more: for statement in more {
        if !is_given(known, said, statement) {
            return false;
        }
    }
    true
}

// Whether a statement is known or said.
fn is_given(known: &[Statement], said: &[Statement], statement: &Statement) -> bool
    ensures { IsTrue result → Any (IsSame statement.now) known.now
        ⊎ Any (IsSame statement.now) said.now }
{
    is_among(known, *statement) || is_among(said, *statement)
}

// Whether a statement is one of some.
fn is_among(said: &[Statement], statement: Statement) -> bool
    ensures { IsTrue result → Any (IsSame statement) said.now }
{
    said.iter().any(|other| other.id == statement.id && other.value == statement.value)
}

// Whether of each term of which something is known a kept link's region says something.
fn are_named(known: &[Statement], kept: &[Kept]) -> bool
    ensures { IsTrue result → All (λ s. Any (λ k. Any (λ t. t.id ≡ s.id) k.said.items) kept.now)
        known.now }
{
    'known: for statement in known {
        if !is_named(kept, statement.id) {
            return false;
        }
    }
    true
}

// Whether a kept link's region says something of a term.
fn is_named(kept: &[Kept], id: Id) -> bool
    ensures { IsTrue result → Any (λ k. Any (λ t. t.id ≡ id) k.said.items) kept.now }
{
    'kept: for link in kept {
        if names(link, id) {
            return true;
        }
    }
    false
}

// Whether this link's region does.
fn names(link: &Kept, id: Id) -> bool
    ensures { IsTrue result → Any (λ t. t.id ≡ id) link.now.said.items }
{
    has_term(&link.said, id)
}

// Whether something is said of a term.
fn has_term(said: &[Statement], id: Id) -> bool
    ensures { IsTrue result → Any (λ t. t.id ≡ id) said.now }
{
    said.iter().any(|statement| statement.id == id)
}

// The numbers of kept links, the last one first.
fn numbers_of(alloc: Global, kept: &[Kept]) -> Result<Vec<u64>, AllocError>
    ensures { IfOk result (λ numbers.
        IsPermutation (map (λ k. k.number) kept.now) numbers.items) }
{
    let mut numbers = Vec::new(alloc);
    'kept: for link in kept {
        numbers.push(link.number)?;
    }
    numbers.reverse();
    Ok(numbers)
}
