//! Which terms below a region are its conjuncts.

ghost use Rattle.std.specs.Prelude.{◌≡◌, ◌<◌, false, IfOk, length, replicate};
ghost use Rattle.qv_store.specs.Nodes.{tree_at};
ghost use Rattle.qv_store.specs.Stores.{AreShared};
ghost use Rattle.qv_store.specs.Walks.{IsWalk, IsEarlier};
ghost use Rattle.qv_choose_paths.specs.Sights.{IsSight};
ghost use Rattle.qv_choose_clauses.specs.Conjuncts.{AreConjuncts, AreMarked, MarksSides};

use crate::sides::sides_of;
use qv_choose_paths::Sight;
use qv_store::{Id, NoMemory, Store, Walk};
use std::alloc::Global;

// Marks of those terms of a region that are its conjuncts, where they join none themselves, in time
// proportional to the number of terms.
pub(crate) fn conjuncts(
    alloc: Global,
    store: &Store,
    region: Id,
    sight: &Sight,
) -> Result<Vec<bool>, NoMemory>
    requires { IsSight store.now region sight.now }
    ensures many { IfOk result (λ marks. length marks.items ≡ length sight.now.walk) }
    ensures marks { IfOk result (λ marks. AreConjuncts store.now (tree_at store.now region)
        sight.now.walk marks.items) }
{
    let mut marks = unmarked(alloc, sight.walk.len())?;
    mark_all(store, &sight.walk, region, &mut marks);
    Ok(marks)
}

// So many marks, of which none is set.
fn unmarked(alloc: Global, many: usize) -> Result<Vec<bool>, NoMemory>
    ensures { IfOk result (λ marks. marks.items ≡ replicate many false) }
{
    let marks = vec![in alloc; false; many]?;
    Ok(marks)
}

// Marks a term, and what each marked one joins: from the last one to the first, which stand behind
// those that they join.
fn mark_all(store: &Store, walk: &Walk, region: Id, marks: &mut [bool])
    requires walk { IsWalk store.now walk.now }
    requires shared { AreShared store.now }
    requires region { IsEarlier walk.now (length walk.now) region }
    requires none { marks.old ≡ replicate (length walk.now) false }
    ensures many { length marks.new ≡ length marks.old }
    ensures marks { AreConjuncts store.now (tree_at store.now region) walk.now marks.new }
{
    marks[walk.position(region)] = true;
    let mut left = marks.len();
    'marks: while left > 0 {
        left -= 1;
        mark_sides(store, walk, marks, left);
    }
}

// Where the term of this number is marked and joins two, they are marked.
fn mark_sides(store: &Store, walk: &Walk, marks: &mut [bool], number: usize)
    requires walk { IsWalk store.now walk.now }
    requires shared { AreShared store.now }
    requires many { length marks.old ≡ length walk.now }
    requires number { number < length marks.old }
    ensures many { length marks.new ≡ length marks.old }
    ensures marks { MarksSides store.now walk.now number marks.old marks.new }
{
    if !marks[number] {
        return;
    }
    match sides_of(store, walk.ids()[number], true) {
        None => {}
        Some(sides) => mark_both(walk, marks, sides.0, sides.1),
    }
}

// Marks two terms.
fn mark_both(walk: &Walk, marks: &mut [bool], a: Id, b: Id)
    requires a { IsEarlier walk.now (length walk.now) a }
    requires b { IsEarlier walk.now (length walk.now) b }
    requires many { length marks.old ≡ length walk.now }
    ensures many { length marks.new ≡ length marks.old }
    ensures marks { AreMarked walk.now a b marks.old marks.new }
{
    let first = walk.position(a);
    let second = walk.position(b);
    marks[first] = true;
    marks[second] = true;
}
