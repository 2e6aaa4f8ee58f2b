//! Laws of the numbers of reading, and of what is known of std's readers.

ghost use Rattle.std.specs.Prelude.{◌≡◌};
ghost use Rattle.qv_sexpr.specs.Counted.{GivenIsCounted};
ghost use Rattle.qv_sexpr.specs.Limits.{nesting_limit, piece_size, read_limit};

use crate::building::NESTING_LIMIT;
use qv_io::{LIMIT, PIECE};
use std::io::Read;

/// The code's constants are the numbers of the definitions.
pub fn constants_are_the_numbers()
    ensures nesting { NESTING_LIMIT ≡ nesting_limit }
    ensures piece { PIECE ≡ piece_size }
    ensures limit { LIMIT ≡ read_limit }
{}

/// What a source over one of std's readers gave it counted, though it tells nothing.
pub fn given_is_counted<R: Read>()
    ensures { GivenIsCounted R.remaining }
{}
