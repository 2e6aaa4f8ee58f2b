//! Turns of the level game.
//!
//! A game has a point, for the places of the blocks before the present level, and entries. The
//! owner of the level's block is asked for values of the block that lie in none of the opponent's
//! regions at the next level (`Lane::ask`).
//!
//! - Values: the point is made longer by them. At the last level the owner has won there. At another
//!   one, where an earlier region of the owner at the next level holds the longer point, it has won
//!   too (`holds_at`: these entries are all forced, since the next block is the opponent's). Then
//!   the owner's entry is added (`own`), and play goes on one level up, where the opponent is asked
//!   again. Where no region holds it, play goes on at the next level.
//! - Bits of the point that leave no values: the opponent's entry is added (`force`), and so is, one
//!   level up, that of the opponent itself, which owns the block there (`own`). Play goes on two
//!   levels up.
//!
//! An entry at level 1 ends the game.
#![tactic(auto)]

mod moves;
mod turns;

pub use turns::{Spot, Turn, next_turn};
