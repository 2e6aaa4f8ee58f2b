//! Play of the level game.
//!
//! A game goes on turn by turn (`next_turn` of `qv_game_turns`), from level 1 and the empty point on,
//! until an entry at level 1 ends it.
//!
//! Each turn adds an entry or goes down a level, so
//! (limit of instances - instances) * (blocks + 2) + (blocks + 1 - level) falls.
#![tactic(auto)]

mod fault;
mod offering;
mod playing;

pub use fault::PlayFault;
pub use playing::{Played, Won, play, play_noting};
