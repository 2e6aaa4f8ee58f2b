//! One pass through a region that says how a place stands in each term.

ghost use Rattle.std.specs.Prelude.{◌≡◌, ◌<◌, ◌≤◌, ◌||◌, ◌&&◌, false, not, All, IfOk, Some, length};
ghost use Rattle.std.specs.Prelude.{slice_get};
ghost use Rattle.qv_words.specs.declared.sort.Sort.{Sort};
ghost use Rattle.qv_words.specs.Tree.{Apply};
ghost use Rattle.qv_words.specs.Tree.{Variable, Nil, Cons};
ghost use Rattle.qv_store.specs.Nodes.{tree_at, trees_at};
ghost use Rattle.qv_store.specs.Walks.{IsWalk, IsEarlier};
ghost use Rattle.qv_words.specs.InverseLaws.{has_row};
ghost use Rattle.qv_words.specs.Choice.{literal_value};
ghost use Rattle.qv_choose_paths.specs.Rows.{uses_other};
ghost use Rattle.qv_choose_paths.specs.Looks.{through, way_of_two, way_of_three, look_of, AreLooks};

use crate::rows::{has_row, literal, uses_other};
use crate::ways::{Look, Place, Way};
use qv_store::{Id, NoMemory, Node, Store, Walk};
use qv_words::Op;
use std::alloc::Global;

// What the terms of a walk show of the place, in time proportional to their number.
pub(crate) fn look(
    alloc: Global,
    store: &Store,
    walk: &Walk,
    place: Place,
) -> Result<Vec<Look>, NoMemory>
    requires { IsWalk store.now walk.now }
    ensures many { IfOk result (λ looks. length looks.items ≡ length walk.now) }
    ensures looks { IfOk result (λ looks. AreLooks place store.now walk.now looks.items) }
{
    let mut looks = Vec::new(alloc);
    'terms: for term in walk.ids() {
        let look = look_at(store, walk, &looks, place, *term);
        looks.push(look)?;
    }
    Ok(looks)
}

// What was found for a term.
pub(crate) fn look_of(store: &Store, walk: &Walk, looks: &[Look], place: Place, id: Id) -> Look
    requires earlier { IsEarlier walk.now (length looks.now) id }
    requires looks { AreLooks place store.now walk.now looks.now }
    ensures { result ≡ look_of place (tree_at store.now id) }
{
    *walk.result_of(looks, id)
}

// What the next term shows, over what was found for those before it.
fn look_at(store: &Store, walk: &Walk, looks: &[Look], place: Place, id: Id) -> Look
    requires walk { IsWalk store.now walk.now }
    requires at { slice_get walk.now (length looks.now) ≡ Some id }
    requires looks { AreLooks place store.now walk.now looks.now }
    ensures { result ≡ look_of place (tree_at store.now id) }
{
    match store.node(id) {
        Node::Var { level, .. } => look_at_variable(place, *level),
        Node::App { op, kids } => look_through(store, walk, looks, place, *op, kids.as_slice()),
        _ => nothing(),
    }
}

// A term without variables shows nothing.
fn nothing() -> Look
    ensures { result ≡ record { inside = false; way = Way.Absent } }
{
    Look {
        inside: false,
        way: Way::Absent,
    }
}

// What a variable shows.
fn look_at_variable(place: Place, level: u64) -> Look
    ensures { (s : Sort) → result ≡ look_of place (Variable level s) }
{
    let way = if level == place.level {
        Way::Open
    } else {
        Way::Absent
    };
    Look {
        inside: place.first <= level && level < place.end,
        way,
    }
}

// What an application shows, over what its arguments do.
fn look_through(
    store: &Store,
    walk: &Walk,
    looks: &[Look],
    place: Place,
    op: Op,
    kids: &[Id],
) -> Look
    requires kids { All (IsEarlier walk.now (length looks.now)) kids.now }
    requires ids { All (λ kid. kid < length store.now) kids.now }
    requires few { length kids.now ≤ 3 }
    requires looks { AreLooks place store.now walk.now looks.now }
    ensures { result ≡ look_of place (Apply op (trees_at store.now kids.now)) }
{
    match kids {
        [a] => {
            let under = look_of(store, walk, looks, place, *a);
            Look {
                inside: under.inside,
                way: through(has_row(op, None), under.way),
            }
        }
        [a, b] => look_through_two(store, walk, looks, place, op, *a, *b),
        [a, b, c] => look_through_three(
            look_of(store, walk, looks, place, *a),
            look_of(store, walk, looks, place, *b),
            look_of(store, walk, looks, place, *c),
        ),
        _ => nothing(),
    }
}

// What an application to two arguments shows.
fn look_through_two(
    store: &Store,
    walk: &Walk,
    looks: &[Look],
    place: Place,
    op: Op,
    a: Id,
    b: Id,
) -> Look
    requires first { IsEarlier walk.now (length looks.now) a }
    requires second { IsEarlier walk.now (length looks.now) b }
    requires first_id { a < length store.now }
    requires second_id { b < length store.now }
    requires looks { AreLooks place store.now walk.now looks.now }
    ensures { result ≡ look_of place
        (Apply op (Cons (tree_at store.now a) (Cons (tree_at store.now b) Nil))) }
{
    let left = look_of(store, walk, looks, place, a);
    let right = look_of(store, walk, looks, place, b);
    let clear_left = is_clear(store, op, 0, b, right.inside);
    let clear_right = is_clear(store, op, 1, a, left.inside);
    let to_left = through(clear_left, left.way);
    let to_right = through(clear_right, right.way);
    let inside = either(left.inside, right.inside);
    let way = way_of_two(left.way, right.way, to_left, to_right);
    Look { inside, way }
}

// Whether an argument has a row beside the other one, into which no place of the block comes. The
// other one has such a place inside, or none.
fn is_clear(store: &Store, op: Op, position: usize, other: Id, inside: bool) -> bool
    requires { other < length store.now }
    ensures { result ≡ (has_row op (literal_value (tree_at store.now other))
        && not (inside && uses_other op position)) }
{
    let has_row = has_row(op, literal(store, other));
    let uses_other = uses_other(op, position);
    has_row && !(inside && uses_other)
}

// Whether one of two is true.
fn either(a: bool, b: bool) -> bool
    ensures { result ≡ (a || (b || false)) }
{
    a || b
}

// The way to the one of two arguments in which the place stands.
fn way_of_two(left: Way, right: Way, to_left: Way, to_right: Way) -> Way
    ensures { result ≡ way_of_two left right to_left to_right }
{
    match left {
        Way::Absent => to_right,
        _ => match right {
            Way::Absent => to_left,
            _ => Way::Hidden,
        },
    }
}

// What an application to three arguments shows.
fn look_through_three(a: Look, b: Look, c: Look) -> Look
    ensures inside { result.inside ≡ (a.inside || (b.inside || (c.inside || false))) }
    ensures way { result.way ≡ way_of_three a.way b.way c.way }
{
    Look {
        inside: a.inside || b.inside || c.inside,
        way: way_of_three(a.way, b.way, c.way),
    }
}

// No operator of three arguments has a row.
fn way_of_three(a: Way, b: Way, c: Way) -> Way
    ensures { result ≡ way_of_three a b c }
{
    match (a, b, c) {
        (Way::Absent, Way::Absent, Way::Absent) => Way::Absent,
        _ => Way::Hidden,
    }
}

// The way through an operator to an argument in which the place stands in this way, where the
// operator has a row for the argument into which no place of the block comes, or else.
fn through(clear: bool, way: Way) -> Way
    ensures { result ≡ through clear way }
{
    match way {
        Way::Open => { if clear { Way::Open } else { Way::Hidden } }
        _ => way,
    }
}
