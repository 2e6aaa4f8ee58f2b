//! Bits of places.

ghost use Rattle.std.specs.Prelude.{◌≡◌, ◌+◌, ◌*◌, ◌<◌, ◌≤◌, ◌^◌, ◌++◌, if◌then◌else◌, OnOk, length};
ghost use Rattle.qv_words.specs.Sort.{IsLawful, IsValueOf};
ghost use Rattle.qv_words.specs.Word.{word_sort, word_value};
ghost use Rattle.qv_words.specs.Gate.{lit_value, neg};
ghost use Rattle.qv_circuits_laws.specs.CircuitLaws.{number_of};
ghost use Rattle.qv_game_entry_laws.specs.Fixings.{fixed};
ghost use Rattle.qv_circuits.specs.Adding.{lit_of, lits_of};
ghost use Rattle.qv_sat.specs.Answering.{assignment};

use qv_cnf::Lit;
use qv_words::{Sort, Word};
use std::alloc::AllocError;

// Each of the bits, as the number has it.
pub(crate) fn fix(lits: &mut Vec<Lit>, bits: &[Lit], value: u128) -> Result<(), AllocError>
    ensures { OnOk result (lits_of lits.new.items
        ≡ lits_of lits.old.items ++ fixed value (lits_of bits.now)) }
{
    let mut rest = value;
    'bits: for bit in bits {
        lits.push(as_known(*bit, rest % 2 == 1))?;
        rest /= 2;
    }
    Ok(())
}

/// The bit where it is known to be one, and else its negation.
pub fn as_known(bit: Lit, one: bool) -> Lit
    ensures { lit_of result ≡ (if one then lit_of bit else neg (lit_of bit)) }
{
    if one { bit } else { bit.negated() }
}

// The word of a value.
pub(crate) fn word_of(sort: Sort, value: u128) -> Word
    requires lawful { IsLawful sort }
    requires value { IsValueOf value sort }
    ensures sort { word_sort result ≡ sort }
    ensures value { word_value result ≡ value }
{
    match Word::new(sort, value) {
        Some(word) => word,
        None => unreachable!(),
    }
}

// The number of bits in a model.
pub(crate) fn number_in(model: &[bool], bits: &[Lit]) -> u128
    requires { length bits.now ≤ 128 }
    ensures { result ≡ number_of (assignment model.now) (lits_of bits.now) }
{
    let mut number = 0u128;
    let mut left = bits.len();
    'bits: while left > 0 {
        left -= 1;
        number = doubled(number, value_in(model, bits[left]));
    }
    number
}

// Twice the number, and one more where it is so.
fn doubled(number: u128, one: bool) -> u128
    requires { number < 2 ^ 127 }
    ensures { result ≡ 2 * number + (if one then 1 else 0) }
{
    2 * number + u128::from(one)
}

// A literal's value in a model; variables behind its end are false.
fn value_in(model: &[bool], lit: Lit) -> bool
    ensures { result ≡ lit_value (assignment model.now) (lit_of lit) }
{
    let index = lit.variable() as usize - 1;
    let truth = index < model.len() && model[index];
    truth == lit.is_positive()
}
