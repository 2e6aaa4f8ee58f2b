//! The first entry whose region holds a point.

ghost use Rattle.std.specs.Prelude.{◌≡◌, ◌↔◌, ◌<◌, ◌∷◌, [], All, IfOk, IfSome, IsTrue, OnOk};
ghost use Rattle.std.specs.Prelude.{length, map, true};
ghost use Rattle.qv_words.specs.Word.{values_of};
ghost use Rattle.qv_words.specs.Choice.{IsTrueAt};
ghost use Rattle.qv_store.specs.Nodes.{tree_at};
ghost use Rattle.qv_store.specs.Problems.{quantifier_of};
ghost use Rattle.qv_entries.specs.Rows.{entries_in, entry_in, is_row_of, regions_of, row_of};
ghost use Rattle.qv_entries.specs.Conjunctions.{IsConjunction};
ghost use Rattle.qv_entries.specs.Holding.{HoldsAt, IsAskable, IsFirstWith};
ghost use Rattle.qv_entries.specs.Tables.{IsTable};

use crate::entry::Entry;
use crate::shallow::equation_word;
use crate::table::Table;
use qv_store::{Id, NoMemory, Node, Quant, Store};
use qv_words::{Op, Word};

// The number of the first entry of a level and a winner whose region is true at the point of the
// table.
pub(crate) fn first_holding(
    entries: &[Entry],
    store: &Store,
    level: u64,
    winner: Quant,
    point: &[Word],
    table: &mut Table,
) -> Result<Option<u64>, NoMemory>
    requires table { IsTable store.now point.now table.old }
    requires askable { All (IsAskable store.now point.now)
        (regions_of level (quantifier_of winner) (map row_of entries.now)) }
    ensures { IfOk result (IsFirstWith
        (HoldsAt level (quantifier_of winner) (values_of point.now))
        (entries_in store.now (map row_of entries.now))) }
{
    'entries: for number in 0..entries.len() {
        if holds(&entries[number], store, level, winner, point, table)? {
            return Ok(Some(number as u64));
        }
    }
    Ok(None)
}

// Whether an entry is of this level and winner, and its region is true at the point of the table.
// An entry without terms is a forced one, whose region is most often a conjunction of equations.
fn holds(
    entry: &Entry,
    store: &Store,
    level: u64,
    winner: Quant,
    point: &[Word],
    table: &mut Table,
) -> Result<bool, NoMemory>
    requires table { IsTable store.now point.now table.old }
    requires askable { is_row_of level (quantifier_of winner) (row_of entry.now) ≡ true →
        IsAskable store.now point.now entry.now.region }
    ensures table { OnOk result (IsTable store.now point.now table.new) }
    ensures there { IfOk result (λ there. IsTrue there ↔
        HoldsAt level (quantifier_of winner) (values_of point.now)
        (entry_in store.now (row_of entry.now))) }
{
    if !entry.is_of(level, winner) {
        return Ok(false);
    }
    if entry.terms.is_empty() {
        are_true(entry.region, store, point, table)
    } else {
        is_one(entry.region, store, point, table)
    }
}

// Whether a region is true at a point. The parts of a conjunction are tried one by one, the last
// one first: where a forced entry's region is false at a point, most often one equation shows it.
fn are_true(region: Id, store: &Store, point: &[Word], table: &mut Table) -> Result<bool, NoMemory>
    requires table { IsTable store.now point.now table.old }
    requires askable { IsAskable store.now point.now region }
    ensures table { OnOk result (IsTable store.now point.now table.new) }
    ensures there { IfOk result (λ there. IsTrue there ↔
        IsTrueAt (values_of point.now) (tree_at store.now region)) }
{
    let mut left = region;
    'parts: while let Some((front, part)) = parts_of(store, left) {
        if !means_true(part, store, point, table)? {
            return Ok(false);
        }
        left = front;
    }
    means_true(left, store, point, table)
}

// The two parts of a conjunction.
fn parts_of(store: &Store, id: Id) -> Option<(Id, Id)>
    requires { id < length store.now }
    ensures { IfSome result (λ parts. IsConjunction store.now id parts.0 parts.1) }
{
    match store.node(id) {
        Node::App { op, kids } => parts_among(*op, kids.as_slice()),
        _ => None,
    }
}

// The two arguments of `and`.
fn parts_among(op: Op, kids: &[Id]) -> Option<(Id, Id)>
    ensures { IfSome result (λ parts. (op ≡ Op.And) × (kids.now ≡ parts.0 ∷ parts.1 ∷ [])) }
{
    match op {
        Op::And => two_of(kids),
        _ => None,
    }
}

// The elements of a list of two.
fn two_of(ids: &[Id]) -> Option<(Id, Id)>
    ensures { IfSome result (λ two. ids.now ≡ two.0 ∷ two.1 ∷ []) }
{
    match ids {
        [first, second] => Some((*first, *second)),
        _ => None,
    }
}

// Whether a part's value at a point is 1: at once where it is an equation of bits, else by the
// table.
fn means_true(part: Id, store: &Store, point: &[Word], table: &mut Table) -> Result<bool, NoMemory>
    requires table { IsTable store.now point.now table.old }
    requires askable { IsAskable store.now point.now part }
    ensures table { OnOk result (IsTable store.now point.now table.new) }
    ensures there { IfOk result (λ there. IsTrue there ↔
        IsTrueAt (values_of point.now) (tree_at store.now part)) }
{
    match equation_word(store, part, point) {
        Some(word) => Ok(word.value() == 1),
        None => is_one(part, store, point, table),
    }
}

// Whether a region's value at a point is 1, by the table.
fn is_one(region: Id, store: &Store, point: &[Word], table: &mut Table) -> Result<bool, NoMemory>
    requires table { IsTable store.now point.now table.old }
    requires askable { IsAskable store.now point.now region }
    ensures table { OnOk result (IsTable store.now point.now table.new) }
    ensures there { IfOk result (λ there. IsTrue there ↔
        IsTrueAt (values_of point.now) (tree_at store.now region)) }
{
    let word = table.word(store, region, point)?;
    Ok(word.value() == 1)
}
