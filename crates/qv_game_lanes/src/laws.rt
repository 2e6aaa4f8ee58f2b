//! What is known of lanes: each function's contract is a law.

ghost use Rattle.qv_game_lanes.specs.LaneLaws.{LanesStay};

/// A lane of formulas in a store is one of the same formulas after the store has grown.
pub fn lanes_stay()
    ensures { LanesStay }
{}
