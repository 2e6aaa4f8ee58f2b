//! Limits that the texts of options write.

ghost use Rattle.std.specs.Prelude.{◌≡◌, ◌≤◌, ◌+◌, ◌*◌, ◌^◌, min};
ghost use Rattle.qv_elab_defs.specs.Tokens.{digit_value, number_of};

// The greatest limit that is told: no budget is as great.
const GREATEST: u64 = 1 << 60;

// What a byte counts for as a digit.
fn digit_value(byte: u8) -> u8
    ensures { result ≡ digit_value byte }
{
    if byte <= b'9' {
        byte.saturating_sub(b'0')
    } else if byte <= b'F' {
        byte.saturating_sub(b'A' - 10)
    } else {
        byte.saturating_sub(b'a' - 10)
    }
}

// A number with one digit more, or the greatest limit where that is less.
fn with_digit(number: u64, byte: u8) -> u64
    requires { number ≤ 2 ^ 60 }
    ensures { result ≡ min (number * 10 + digit_value byte) (2 ^ 60) }
{
    (number * 10 + u64::from(digit_value(byte))).min(GREATEST)
}

/// The number that decimal digits write, or 2^60 where that is less.
pub fn limit_in(digits: &[u8]) -> u64
    ensures { result ≡ min (number_of 10 digits.now) (2 ^ 60) }
{
    let mut number = 0;
    'digits: for byte in digits {
        number = with_digit(number, *byte);
    }
    number
}
