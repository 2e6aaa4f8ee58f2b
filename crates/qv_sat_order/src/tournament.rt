//! A tournament of variables in a tree: each place has the first of the two below it.

ghost use Rattle.std.specs.Prelude.{◌≡◌, ◌+◌, ◌*◌, ◌/◌, ◌<◌, ◌≤◌, ◌^◌, length, nat_lt};
ghost use Rattle.std.specs.Prelude.{slice_index_or};
ghost use Rattle.qv_sat_order.specs.Tournament.{entrant_at, first_of, rank_of, ArePlayedBut};
ghost use Rattle.qv_sat_order.specs.Tournament.{ArePlayedFrom, IsDrawn, IsRaising, StandsUpTo};

// Whether the first variable comes behind the second: it is less active, or as active and of a
// smaller number. No variable is last.
fn is_behind(activity: &[u64], one: u32, other: u32) -> bool
    requires one { one ≤ length activity.now }
    requires other { other ≤ length activity.now }
    requires few { length activity.now < 2 ^ 32 }
    ensures { result ≡ nat_lt (rank_of activity.now one) (rank_of activity.now other) }
{
    if other == 0 {
        return false;
    }
    if one == 0 {
        return true;
    }
    let active = activity[one as usize - 1];
    let bound = activity[other as usize - 1];
    active < bound || (active == bound && one < other)
}

// The variable at a place, or 0 for none.
fn entrant(nodes: &[u32], held: &[bool], place: usize) -> u32
    requires few { length held.now < 2 ^ 32 }
    ensures { result ≡ entrant_at nodes.now held.now place }
{
    if place < nodes.len() {
        return nodes[place];
    }
    let leaf = place - nodes.len();
    if leaf < held.len() && held[leaf] {
        leaf as u32 + 1
    } else {
        0
    }
}

// The first of the two below a place.
fn winner(nodes: &[u32], held: &[bool], activity: &[u64], place: usize) -> u32
    requires drawn { IsDrawn nodes.now held.now activity.now }
    requires place { place < length nodes.now }
    ensures first { result ≡ first_of activity.now (entrant_at nodes.now held.now (2 * place))
        (entrant_at nodes.now held.now (2 * place + 1)) }
    ensures within { result ≤ length held.now }
{
    let left = entrant(nodes, held, 2 * place);
    let right = entrant(nodes, held, 2 * place + 1);
    if is_behind(activity, left, right) {
        right
    } else {
        left
    }
}

// Plays again from a place up, where what stands there is new.
pub(crate) fn mend(nodes: &mut [u32], held: &[bool], activity: &[u64], from: usize)
    requires drawn { IsDrawn nodes.old held.now activity.now }
    requires played { ArePlayedBut nodes.old held.now activity.now (from / 2) }
    requires from { from < 2 * length nodes.old }
    ensures drawn { IsDrawn nodes.new held.now activity.now }
    ensures played { ArePlayedFrom nodes.new held.now activity.now 0 }
{
    let mut place = from;
    'up: while place > 1 {
        place /= 2;
        let first = winner(nodes, held, activity, place);
        if nodes[place] == first {
            break;
        }
        nodes[place] = first;
    }
}

// Lets a variable that became more active go up from the highest place where it stands: at each place
// above, it meets only who stands there.
pub(crate) fn raise(nodes: &mut [u32], held: &[bool], activity: &[u64], from: usize, variable: u32)
    requires drawn { IsDrawn nodes.old held.now activity.now }
    requires raising { IsRaising nodes.old held.now activity.now variable from }
    requires from { from < 2 * length nodes.old }
    requires variable { variable ≤ length held.now }
    ensures drawn { IsDrawn nodes.new held.now activity.now }
    ensures played { ArePlayedFrom nodes.new held.now activity.now 0 }
{
    let _held = held;
    let mut place = from;
    'up: while place > 1 {
        place /= 2;
        if !goes_behind(nodes, activity, place, variable) {
            break;
        }
        nodes[place] = variable;
    }
}

// Whether who stands at a place comes behind the variable.
fn goes_behind(nodes: &[u32], activity: &[u64], place: usize, variable: u32) -> bool
    requires place { place < length nodes.now }
    requires one { slice_index_or nodes.now place 0 ≤ length activity.now }
    requires other { variable ≤ length activity.now }
    requires few { length activity.now < 2 ^ 32 }
    ensures { result ≡ nat_lt (rank_of activity.now (slice_index_or nodes.now place 0))
        (rank_of activity.now variable) }
{
    is_behind(activity, nodes[place], variable)
}

// The highest place up to which a variable stands, from its leaf.
pub(crate) fn top(nodes: &[u32], leaf: usize, variable: u32) -> usize
    requires { leaf < 2 * length nodes.now }
    ensures { StandsUpTo nodes.now leaf variable result }
{
    let mut place = leaf;
    'up: while place > 1 && nodes[place / 2] == variable {
        place /= 2;
    }
    place
}

// Plays anew.
pub(crate) fn play(nodes: &mut [u32], held: &[bool], activity: &[u64])
    requires { IsDrawn nodes.old held.now activity.now }
    ensures drawn { IsDrawn nodes.new held.now activity.now }
    ensures played { ArePlayedFrom nodes.new held.now activity.now 0 }
{
    let mut place = nodes.len();
    'up: while place > 1 {
        place -= 1;
        nodes[place] = winner(nodes, held, activity, place);
    }
}

// The variable that comes first, or 0 where none is held.
pub(crate) fn first(nodes: &[u32], held: &[bool]) -> u32
    requires few { length held.now < 2 ^ 32 }
    ensures { result ≡ entrant_at nodes.now held.now 1 }
{
    entrant(nodes, held, 1)
}
