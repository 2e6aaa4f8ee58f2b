//! What is known of linked lists, of the terms that are chosen for them and of what is drawn from
//! them: each function's contract is a law.

ghost use Rattle.qv_game_laws.specs.CandidateLaws.{CandidatesAreTerms, ChosenAreTerms};
ghost use Rattle.qv_game_laws.specs.EntryLaws.{EachEntry, OwnedTerms, OwnedStep, ForcedStep};
ghost use Rattle.qv_game_laws.specs.PathLaws.{PathsPerLine, ParentsPathIsFront, DrawnIsLonger};
ghost use Rattle.qv_game_laws.specs.PathLaws.{PathsStay, NextLinesPath, PathsReachDown};
ghost use Rattle.qv_game_laws.specs.WinningLaws.{RegionTheorem, ChainTheorem, TreeTheorem};

/// Each candidate for a place is a term of its sort over the region's places.
pub fn candidates_are_terms()
    ensures { CandidatesAreTerms }
{}

/// The terms that are chosen for a block are terms of its sorts over the region's places before it,
/// where no place of the region is behind it.
pub fn chosen_are_terms()
    ensures { ChosenAreTerms }
{}

/// Each entry of a linked list may come behind those before it.
pub fn each_entry()
    ensures { EachEntry }
{}

/// The terms of a block's owner are terms of its sorts over the places before the block.
pub fn owned_terms()
    ensures { OwnedTerms }
{}

/// The owner's terms lead from a point of its region to one of the later region.
pub fn owned_step()
    ensures { OwnedStep }
{}

/// From a point of the other player's region all values of the block lead to one of a linked
/// region.
pub fn forced_step()
    ensures { ForcedStep }
{}

/// An entry's winner wins from every point of the entry's region.
pub fn region_theorem()
    ensures { RegionTheorem }
{}

/// Where the existential player has won, the terms that are drawn are a Skolem section, and its
/// goal is true for no values.
pub fn chain_theorem()
    ensures { ChainTheorem }
{}

/// Where the universal player has won, the lines that are drawn are an expansion list, and no
/// values make all its leaves true.
pub fn tree_theorem()
    ensures { TreeTheorem }
{}

/// The lines that are drawn have one path each.
pub fn paths_per_line()
    ensures { PathsPerLine }
{}

/// A line's parent is the root or an earlier line, and the line's path is the parent's and the
/// number of one more entry.
pub fn parents_path_is_front()
    ensures { ParentsPathIsFront }
{}

/// Drawing the part below an entry adds lines, with a path each, behind those that were drawn
/// before.
pub fn drawn_is_longer()
    ensures { DrawnIsLonger }
{}

/// A line's path is the same in each longer tree.
pub fn paths_stay()
    ensures { PathsStay }
{}

/// The path of the next line is that to its parent and the entry's number, there and in each longer
/// tree.
pub fn next_lines_path()
    ensures { NextLinesPath }
{}

/// A line's path has a number for each place down to it.
pub fn paths_reach_down()
    ensures { PathsReachDown }
{}
