//! What a command of a script leads to: a check is answered, and what is written for each is made.
#![tactic(auto)]

mod ending;
mod moves;
mod tallies;
mod texts;

pub use ending::{Ending, Halt};
pub use moves::{After, Course, Move, next_move};
pub use tallies::Tally;
