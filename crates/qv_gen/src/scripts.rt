//! The generator's scripts.

ghost use Rattle.std.specs.Prelude.{◌≡◌, ◌≤◌, ◌++◌, IfOk, OnOk, [], ◌∷◌};
ghost use Rattle.qv_gen.specs.Text.{state_after, hex_byte, block_text, script_text};

use std::alloc::{AllocError, Global};

/// Memory ran out.
pub type NoMemory = AllocError;

/// The greatest number of a script.
pub const GREATEST_NUMBER: u64 = 100_000;

const HEX_DIGITS: &[u8; 16] = b"0123456789abcdef";

/// The state behind this one: a step of Knuth's MMIX generator.
pub fn next_state(state: u64) -> u64
    ensures { result ≡ state_after state }
{
    state
        .wrapping_mul(6364136223846793005)
        .wrapping_add(1442695040888963407)
}

/// The text of the block of a state: two checks, whose answers are sat and unsat.
pub fn block(alloc: Global, state: u64) -> Result<Vec<u8>, NoMemory>
    ensures { IfOk result (λ text. text.items ≡ block_text state) }
{
    let mut text = Vec::new(alloc);
    push_block(state, &mut text)?;
    Ok(text)
}

/// The script of a number: so many blocks, each of the next state, where the number is the first.
pub fn script(alloc: Global, number: u64) -> Result<Vec<u8>, NoMemory>
    requires { number ≤ GREATEST_NUMBER }
    ensures { IfOk result (λ text. text.items ≡ script_text number) }
{
    let mut text = Vec::from_slice(alloc, b"(set-logic BV)\n")?;
    let mut state = number;
    for i in 0..number {
        state = next_state(state);
        push_block(state, &mut text)?;
    }
    Ok(text)
}

// Adds the text of the block of a state.
fn push_block(state: u64, text: &mut Vec<u8>) -> Result<(), NoMemory>
    ensures { OnOk result (text.new.items ≡ text.old.items ++ block_text state) }
{
    let c = (state >> 56) as u8;
    let d = ((state >> 48) % 256) as u8;
    push_byte(
        b"(push 1)\n\
          (assert (forall ((x (_ BitVec 8))) (exists ((y (_ BitVec 8))) (= (bvadd y #x",
        c,
        text,
    )?;
    push_byte(b") (bvxor x #x", d, text)?;
    push_byte(
        b")))))\n\
          (check-sat)\n\
          (assert (forall ((z (_ BitVec 8))) (bvult z #x",
        c,
        text,
    )?;
    text.extend_from_slice(b")))\n(check-sat)\n(pop 1)\n")?;
    Ok(())
}

// Adds what stands before a byte, and the byte in two hexadecimal digits.
fn push_byte(before: &[u8], byte: u8, text: &mut Vec<u8>) -> Result<(), NoMemory>
    ensures { OnOk result (text.new.items ≡ text.old.items ++ (before.now ++ hex_byte byte)) }
{
    text.extend_from_slice(before)?;
    text.push(HEX_DIGITS[(byte >> 4) as usize])?;
    text.push(HEX_DIGITS[(byte & 0xf) as usize])?;
    Ok(())
}
