//! The queries of the level game: a game with a lane a level, from its start on, which is asked at
//! points and told of entries.
//!
//! There is one lane a level from 2 on: about the regions of the player who doesn't own the block
//! before, with one blaster and one core for the whole play. Since blocks alternate, that player
//! owns the block of the level (or the game ends there), so a lane's regions are those of owned
//! entries, and the regions of forced ones are only looked at where a point comes down. An owned
//! entry's negation is put behind its lane's formulas as soon as the entry is charged: so a lane's
//! formulas are its query list of the entries at each moment, behind the last block rewritten once
//! before play, and the additions of its core are its tally.
#![tactic(auto)]

mod game;
mod marks;
mod players;
mod query;
mod regions;
mod runs;
mod spans;
mod starting;

pub use game::Game;
pub use players::{is_same, opponent};
pub use query::Query;
pub use regions::put_last;
pub use runs::failed_runs;
pub use spans::Span;
pub use starting::start;
