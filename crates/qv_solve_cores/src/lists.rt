//! The lists that are tried.

ghost use Rattle.std.specs.Prelude.{◌≡◌, ◌≢◌, ◌↔◌, ◌<◌, IfOk, IsTrue, Some, [], false, length, slice_get};
ghost use Rattle.std.specs.Prelude.{slice_index_or, true};
ghost use Rattle.qv_cnf.specs.Listing.{Rises};
ghost use Rattle.qv_core.specs.Searching.{begun};
ghost use Rattle.qv_core.specs.Without.{without};
ghost use Rattle.qv_solve_cores.specs.Marks.{gone, kept_but, kept_of};

use qv_core::CoreSearch;
use qv_store::{Id, NoMemory};
use std::alloc::Global;

// Whether an item is kept where one is out.
fn stays(search: &CoreSearch, item: u64, out: Option<u64>) -> bool
    requires { item < length search.now.kept }
    ensures { result ≡ slice_index_or (kept_but out search.now.kept) item false }
{
    match out {
        Some(other) => other != item && search.kept(item),
        None => search.kept(item),
    }
}

// Whether the next of the places that have names is this one.
fn is_at(named: &[u64], item: usize, place: u64) -> bool
    ensures { IsTrue result ↔ (slice_get named.now item ≡ Some place) }
{
    match named.get(item) {
        Some(next) => *next == place,
        None => false,
    }
}

/// The formulas without those that are gone, and without one item more.
pub(crate) fn list_without(
    alloc: Global,
    assertions: &[Id],
    named: &[u64],
    search: &CoreSearch,
    out: Option<u64>,
) -> Result<Vec<Id>, NoMemory>
    requires rises { Rises 0 named.now }
    requires each { length search.now.kept ≡ length named.now }
    ensures { IfOk result (λ list. list.items
        ≡ without (gone named.now (kept_but out search.now.kept)) assertions.now) }
{
    let mut list = Vec::new(alloc);
    let mut item = 0;
    'places: for place in 0..assertions.len() {
        if is_at(named, item, place as u64) {
            if stays(search, item as u64, out) {
                list.push(assertions[place])?;
            }
            item += 1;
        } else {
            list.push(assertions[place])?;
        }
    }
    Ok(list)
}

/// The places whose items are kept.
pub(crate) fn kept_places(
    alloc: Global,
    named: &[u64],
    search: &CoreSearch,
) -> Result<Vec<u64>, NoMemory>
    requires { length search.now.kept ≡ length named.now }
    ensures { IfOk result (λ kept. kept.items ≡ kept_of named.now search.now.kept) }
{
    let mut kept = Vec::new(alloc);
    'items: for item in 0..named.len() {
        if search.kept(item as u64) {
            kept.push(named[item])?;
        }
    }
    Ok(kept)
}

/// Drops the items of places that are offered from a search that has all. Says whether any is gone.
pub(crate) fn drop_all(named: &[u64], offered: &[u64], search: &mut CoreSearch) -> bool
    requires { search.old ≡ begun (length named.now) }
    ensures each { length search.new.kept ≡ length named.now }
    ensures next { search.new.next ≡ 0 }
    ensures some { result ≡ true → gone named.now search.new.kept ≢ [] }
{
    let mut some = false;
    let mut nth = 0;
    'items: for item in 0..named.len() {
        if is_at(offered, nth, named[item]) {
            search.leave_out(item as u64);
            some = true;
            nth += 1;
        }
    }
    some
}
