//! The blocks of a prefix.

ghost use Rattle.std.specs.Prelude.{◌≡◌, ◌≤◌, length, map};
ghost use Rattle.qv_store.specs.Problems.{place_of, quantifier_of};
ghost use Rattle.qv_skolem.specs.Blocks.{run_length};

use qv_store::{Place, Quant};

/// How many places from the first on have this quantifier.
pub fn run_length(places: &[Place], quant: Quant) -> usize
    ensures length { result ≡ run_length (quantifier_of quant) (map place_of places.now) }
    ensures within { result ≤ length places.now }
{
    'places: for (number, place) in places.iter().enumerate() {
        if place.quant != quant {
            return number;
        }
    }
    places.len()
}
