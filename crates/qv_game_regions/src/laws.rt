//! What is known of runs: the function's contract is a law.

ghost use Rattle.qv_game_regions.specs.RunLaws.{FixingIsOfEntries};

/// The equations of runs at a point are those by which an entry's region fixes its bits.
pub fn fixing_is_of_entries()
    ensures { FixingIsOfEntries }
{}
