//! The texts of models and of the values of terms.

ghost use Rattle.std.specs.Prelude.{◌≡◌, ◌++◌, All, IfOk, OnOk, length};
ghost use Rattle.qv_words.specs.Sort.{IsLawful};
ghost use Rattle.qv_words.specs.Word.{values_of};
ghost use Rattle.qv_script_stack.specs.Held.{declared_of};
ghost use Rattle.qv_script_texts.specs.Printing.{model_text, ShowsValues};
ghost use Rattle.qv_script_texts.specs.Shown.{IsPair, CanShow, told, gap_at};

use qv_script::{Declared, ValueTerm};
use qv_script_values::{push_definition, push_value};
use qv_store::{NoMemory, Store};
use qv_words::Word;
use std::alloc::Global;

/// Each constant with its value.
pub fn model_text(
    alloc: Global,
    constants: &[Declared],
    values: &[Word],
) -> Result<Vec<u8>, NoMemory>
    requires lawful { All (λ own. IsLawful own.sort) constants.now }
    requires many { length values.now ≡ length constants.now }
    ensures { IfOk result (λ text. text.items
        ≡ model_text (declared_of constants.now) (values_of values.now)) }
{
    let mut text = Vec::from_slice(alloc, b"(\n")?;
    'constants: for i in 0..constants.len() {
        let own = &constants[i];
        push_definition(&own.name, own.sort, values[i].value(), &mut text)?;
    }
    text.extend_from_slice(b")\n")?;
    Ok(text)
}

// Adds a space, but before the first.
fn push_gap(i: usize, text: &mut Vec<u8>) -> Result<(), NoMemory>
    ensures { OnOk result (text.new.items ≡ text.old.items ++ gap_at i) }
{
    if i == 0 {
        Ok(())
    } else {
        text.extend_from_slice(b" ")
    }
}

// Adds a term with its value under values of the constants.
fn push_pair(
    store: &Store,
    term: &ValueTerm,
    consts: &[Word],
    text: &mut Vec<u8>,
) -> Result<(), NoMemory>
    requires { CanShow store.now consts.now term.now }
    ensures { OnOk result (IsPair store.now (values_of consts.now) term.now
        text.old.items text.new.items) }
{
    let word = store.eval_at(term.id, consts, &[])?;
    text.extend_from_slice(b"(")?;
    text.extend_from_slice(&term.text)?;
    text.extend_from_slice(b" ")?;
    push_value(word.sort(), word.value(), text)?;
    text.extend_from_slice(b")")
}

/// Each of these terms with its value.
pub fn values_text(
    alloc: Global,
    store: &Store,
    terms: &[ValueTerm],
    consts: &[Word],
) -> Result<Vec<u8>, NoMemory>
    requires { All (CanShow store.now consts.now) terms.now }
    ensures { IfOk result (λ text. ShowsValues (values_of consts.now)
        (told store.now terms.now) text.items) }
{
    let mut text = Vec::from_slice(alloc, b"(")?;
    'terms: for (i, term) in terms.iter().enumerate() {
        push_gap(i, &mut text)?;
        push_pair(store, term, consts, &mut text)?;
    }
    text.extend_from_slice(b")\n")?;
    Ok(text)
}
