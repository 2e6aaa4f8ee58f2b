//! Laws of the numbers of reading.
ghost use Rattle.std.specs.Prelude.{◌≡◌, ◌-◌, ◌^◌};

use crate::sources::{LIMIT, PIECE};

/// How many bytes a reader asks for at a time, and how many it takes at most before it asks again.
pub fn limits_are_the_numbers()
    ensures piece { PIECE ≡ 4096 }
    ensures limit { LIMIT ≡ 2 ^ 62 - 4096 }
{}
