//! Numbers among the words.

ghost use Rattle.std.specs.Prelude.{◌≡◌, ◌≤◌, ◌==◌, IfSome, slice_index};
ghost use Rattle.qv_shell_args.specs.Number.{number_in};

/// The number of a word of decimal digits, where it is from `least` to `most`. The digits may begin
/// with zeros.
pub fn read_number(word: &str, least: u64, most: u64) -> Option<u64>
    ensures value { result ≡ number_in least most word.now }
    ensures range { IfSome result (λ number. (least ≤ number) × (number ≤ most)) }
{
    if has_plus(word) {
        return None;
    }
    match word.parse::<u64>() {
        Ok(number) if least <= number && number <= most => Some(number),
        _ => None,
    }
}

// Whether the word begins with a plus.
fn has_plus(word: &str) -> bool
    ensures { result ≡ (slice_index word.now 0 == 43) }
{
    match word.as_bytes() {
        [first, ..] => *first == b'+',
        [] => false,
    }
}
