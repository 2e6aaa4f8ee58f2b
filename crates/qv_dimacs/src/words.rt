//! What is seen of a word, byte by byte.

ghost use Rattle.std.specs.Prelude.{◌≡◌, ◌<◌, ◌≤◌};
ghost use Rattle.qv_dimacs.specs.Text.{is_white};
ghost use Rattle.qv_dimacs.specs.Seen.{first_seen, behind_digit, behind_letter, next_seen, more};
ghost use Rattle.qv_dimacs.specs.Seen.{seen_literal, seen_numeral, literal_below};

use qv_cnf::Lit;

/// What the bytes of a word show so far. A number that is too large for a `u64` is its greatest.
#[derive(Clone, Copy)]
pub(crate) enum Seen {
    /// The word `p`.
    P,
    /// Fronts of the word `cnf`, and the word itself.
    C,
    Cn,
    Cnf,
    /// The word `%`.
    Percent,
    Minus,
    /// The word `0`.
    Zero,
    /// Digits, of which the first is no 0.
    Natural(u64),
    /// Digits behind a 0.
    Padded(u64),
    /// Digits behind a minus.
    Negative(u64),
    /// No front of a word that may come.
    Other,
}

// The greatest numeral.
const GREATEST: u64 = (1 << 62) - 1;

/// Whether the byte stands between words.
#[tactic(auto, unfolding(crate::specs::Text::is_white))]
#[inline]
pub(crate) fn is_white(byte: u8) -> bool
    ensures { result ≡ is_white byte }
{
    byte == b'\n' || byte == b' ' || byte == b'\t' || byte == b'\r'
}

// One more digit, up to the greatest number.
#[inline]
fn more(number: u64, digit: u8) -> u64
    ensures { result ≡ more number digit }
{
    number.saturating_mul(10).saturating_add(u64::from(digit))
}

// A literal of a variable, where there is such a variable.
#[inline]
fn literal(number: u64, negative: bool) -> Option<Lit>
    ensures { result ≡ literal_below negative number }
{
    if number > u64::from(Lit::MAX_VARIABLE) {
        return None;
    }
    let variable = number as i32;
    Lit::new(if negative { -variable } else { variable })
}

impl Seen {
    /// What the first byte of a word shows.
    #[inline]
    pub(crate) fn first(byte: u8) -> Seen
        ensures { result ≡ first_seen byte }
    {
        match byte {
            b'0' => Seen::Zero,
            b'1'..=b'9' => Seen::Natural(u64::from(byte - b'0')),
            b'-' => Seen::Minus,
            b'%' => Seen::Percent,
            b'p' => Seen::P,
            b'c' => Seen::C,
            _ => Seen::Other,
        }
    }

    #[inline]
    fn digit(self, digit: u8) -> Seen
        ensures { result ≡ behind_digit self digit }
    {
        match self {
            Seen::Minus => Seen::Negative(u64::from(digit)),
            Seen::Zero => Seen::Padded(u64::from(digit)),
            Seen::Natural(number) => Seen::Natural(more(number, digit)),
            Seen::Padded(number) => Seen::Padded(more(number, digit)),
            Seen::Negative(number) => Seen::Negative(more(number, digit)),
            _ => Seen::Other,
        }
    }

    #[inline]
    fn letter(self, byte: u8) -> Seen
        ensures { result ≡ behind_letter self byte }
    {
        match self {
            Seen::C if byte == b'n' => Seen::Cn,
            Seen::Cn if byte == b'f' => Seen::Cnf,
            _ => Seen::Other,
        }
    }

    /// What one more byte shows.
    #[inline]
    pub(crate) fn next(self, byte: u8) -> Seen
        ensures { result ≡ next_seen self byte }
    {
        if byte.is_ascii_digit() {
            self.digit(byte - b'0')
        } else {
            self.letter(byte)
        }
    }

    /// The literal that the word is.
    #[inline]
    pub(crate) fn literal(self) -> Option<Lit>
        ensures { result ≡ seen_literal self }
    {
        match self {
            Seen::Natural(number) => literal(number, false),
            Seen::Padded(number) => literal(number, false),
            Seen::Negative(number) => literal(number, true),
            _ => None,
        }
    }

    /// Whether the word is a numeral that may stand in a problem line.
    pub(crate) fn is_numeral(self) -> bool
        ensures { result ≡ seen_numeral self }
    {
        match self {
            Seen::Zero => true,
            Seen::Natural(number) => number <= GREATEST,
            _ => false,
        }
    }
}
