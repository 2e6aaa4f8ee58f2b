//! The classes of bytes.

ghost use Rattle.std.specs.Prelude.{◌≡◌};
ghost use Rattle.qv_text.specs.Bytes.{is_white, is_line_end, is_digit, is_binary, is_hex};
ghost use Rattle.qv_text.specs.Bytes.{is_symbol, begins_symbol};

/// Tab, LF, CR and space.
#[tactic(auto, unfolding(crate::specs::Bytes::is_white))]
pub fn is_white(byte: u8) -> bool
    ensures { result ≡ is_white byte }
{
    byte == b'\t' || byte == b'\n' || byte == b'\r' || byte == b' '
}

/// LF and CR.
#[tactic(auto, unfolding(crate::specs::Bytes::is_line_end))]
pub fn is_line_end(byte: u8) -> bool
    ensures { result ≡ is_line_end byte }
{
    byte == b'\n' || byte == b'\r'
}

#[tactic(auto, unfolding(crate::specs::Bytes::is_digit))]
pub fn is_digit(byte: u8) -> bool
    ensures { result ≡ is_digit byte }
{
    b'0' <= byte && byte <= b'9'
}

#[tactic(auto, unfolding(crate::specs::Bytes::is_binary))]
pub fn is_binary(byte: u8) -> bool
    ensures { result ≡ is_binary byte }
{
    byte == b'0' || byte == b'1'
}

#[tactic(auto, unfolding(crate::specs::Bytes::is_hex))]
pub fn is_hex(byte: u8) -> bool
    ensures { result ≡ is_hex byte }
{
    is_digit(byte) || b'a' <= byte && byte <= b'f' || b'A' <= byte && byte <= b'F'
}

/// A byte of a simple symbol.
#[tactic(auto, unfolding(crate::specs::Bytes::is_symbol, crate::specs::Bytes::is_letter))]
pub fn is_symbol(byte: u8) -> bool
    ensures { result ≡ is_symbol byte }
{
    b'a' <= byte && byte <= b'z'
        || b'A' <= byte && byte <= b'Z'
        || is_digit(byte)
        || b"~!@$%^&*_-+=<>.?/".contains(&byte)
}

/// What may begin a simple symbol.
#[tactic(auto, unfolding(crate::specs::Bytes::begins_symbol))]
pub fn begins_symbol(byte: u8) -> bool
    ensures { result ≡ begins_symbol byte }
{
    is_symbol(byte) && !is_digit(byte)
}
