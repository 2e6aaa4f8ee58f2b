//! Values for all constants: those of an answer, and 0 for constants that were declared behind it.

ghost use Rattle.std.specs.Prelude.{◌≡◌, ◌++◌, List, All, IfOk, OnOk, drop};
ghost use Rattle.qv_words.specs.declared.word.Word.{Word};
ghost use Rattle.qv_words.specs.Sort.{IsLawful};
ghost use Rattle.qv_script_texts.specs.Filled.{AreZeros, IsFilled};

use qv_script::Declared;
use qv_store::NoMemory;
use qv_words::Word;
use std::alloc::Global;

// The constants behind so many.
fn behind(constants: &[Declared], count: usize) -> &[Declared]
    ensures { result.now ≡ drop count constants.now }
{
    if count <= constants.len() {
        &constants[count..]
    } else {
        &[]
    }
}

// Adds the value 0 for each constant.
fn push_zeros(words: &mut Vec<Word>, constants: &[Declared]) -> Result<(), NoMemory>
    requires { All (λ own. IsLawful own.sort) constants.now }
    ensures { OnOk result ((zeros : List Word) × (words.new.items ≡ words.old.items ++ zeros)
        × AreZeros constants.now zeros) }
{
    'constants: for own in constants {
        words.push(Word::new(own.sort, 0).unwrap())?;
    }
    Ok(())
}

/// These values, and 0 for each constant behind them.
pub fn all_values(
    alloc: Global,
    constants: &[Declared],
    values: &[Word],
) -> Result<Vec<Word>, NoMemory>
    requires { All (λ own. IsLawful own.sort) constants.now }
    ensures { IfOk result (λ words. IsFilled constants.now values.now words.items) }
{
    let mut words = Vec::from_slice(alloc, values)?;
    push_zeros(&mut words, behind(constants, values.len()))?;
    Ok(words)
}
