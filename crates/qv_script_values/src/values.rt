//! Values and sorts are printed.

ghost use Rattle.std.specs.Prelude.{◌≡◌, ◌≤◌, ◌<◌, ◌*◌, ◌^◌, ◌++◌, OnOk};
ghost use Rattle.qv_words.specs.Sort.{IsLawful};
ghost use Rattle.qv_script_values.specs.Kept.{Keeps};
ghost use Rattle.qv_script_values.specs.ValueText.{digit, digits, value_text, sort_text};

use itoa::Buffer;
use qv_words::Sort;
use std::alloc::AllocError;

// The digit of a number below 16.
fn digit(number: u8) -> u8
    requires { number < 16 }
    ensures { result ≡ digit number }
{
    if number < 10 {
        b'0' + number
    } else {
        b'a' + (number - 10)
    }
}

// Adds the last digits of a value to the base, so many, each of which stands for so many bits.
fn push_digits(
    value: u128,
    base: u128,
    bits: u8,
    count: u8,
    out: &mut Vec<u8>,
) -> Result<(), AllocError>
    requires base { base ≡ 2 ^ bits }
    requires few { base ≤ 16 }
    requires some { 1 ≤ bits }
    requires width { bits * count ≤ 128 }
    ensures ok { OnOk result (out.new.items ≡ out.old.items ++ digits base count value) }
    ensures kept { Keeps out.old.items out.new.items }
{
    'digits: for i in 0..count {
        let shift = bits * (count - 1 - i);
        let number = (value >> shift) % base;
        out.push(digit(number as u8))?;
    }
    Ok(())
}

/// Adds a value of a sort: `true` or `false`, and a bit-vector by `#x` and its digits where 4
/// divides its width, otherwise by `#b`. Where memory runs out, a part may be added.
pub fn push_value(sort: Sort, value: u128, out: &mut Vec<u8>) -> Result<(), AllocError>
    requires { IsLawful sort }
    ensures ok { OnOk result (out.new.items ≡ out.old.items ++ value_text sort value) }
    ensures kept { Keeps out.old.items out.new.items }
{
    match sort {
        Sort::Bool if value == 1 => out.extend_from_slice(b"true"),
        Sort::Bool => out.extend_from_slice(b"false"),
        Sort::Bits(width) if width % 4 == 0 => {
            out.extend_from_slice(b"#x")?;
            push_digits(value, 16, 4, width / 4, out)
        }
        Sort::Bits(width) => {
            out.extend_from_slice(b"#b")?;
            push_digits(value, 2, 1, width, out)
        }
    }
}

/// Adds a sort. Where memory runs out, a part may be added.
pub fn push_sort(sort: Sort, out: &mut Vec<u8>) -> Result<(), AllocError>
    ensures ok { OnOk result (out.new.items ≡ out.old.items ++ sort_text sort) }
    ensures kept { Keeps out.old.items out.new.items }
{
    match sort {
        Sort::Bool => out.extend_from_slice(b"Bool"),
        Sort::Bits(width) => {
            out.extend_from_slice(b"(_ BitVec ")?;
            out.extend_from_slice(Buffer::new().format(width).as_bytes())?;
            out.extend_from_slice(b")")
        }
    }
}
