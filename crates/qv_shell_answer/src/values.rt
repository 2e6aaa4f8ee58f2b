//! Values of all constants in force.

ghost use Rattle.std.specs.Prelude.{◌≡◌, All, IfOk, map, set};
ghost use Rattle.qv_words.specs.Sort.{IsLawful};
ghost use Rattle.qv_words.specs.Word.{sorts_of, values_of, word_value};
ghost use Rattle.qv_shell_answer.specs.Values.{AreZeros, Fit, filled};

use qv_script::Declared;
use qv_solve::ConstValue;
use qv_store::NoMemory;
use qv_words::Word;
use std::alloc::Global;

/// A value for each constant: the given one where there is one, and else 0.
pub(crate) fn all_values(
    alloc: Global,
    constants: &[Declared],
    given: &[ConstValue],
) -> Result<Vec<Word>, NoMemory>
    requires lawful { All (λ own. IsLawful own.sort) constants.now }
    requires fit { All (Fit constants.now) given.now }
    ensures values { IfOk result (λ words. values_of words.items
        ≡ filled (map (λ _. 0) constants.now) given.now) }
    ensures sorts { IfOk result (λ words. sorts_of words.items
        ≡ map (λ own. own.sort) constants.now) }
{
    let mut words = zeros(alloc, constants)?;
    set_all(constants, given, &mut words);
    Ok(words)
}

// The value 0 for each constant.
fn zeros(alloc: Global, constants: &[Declared]) -> Result<Vec<Word>, NoMemory>
    requires { All (λ own. IsLawful own.sort) constants.now }
    ensures { IfOk result (λ words. AreZeros constants.now words.items) }
{
    let mut words = Vec::new(alloc);
    'owns: for own in constants {
        words.push(Word::new(own.sort, 0).unwrap())?;
    }
    Ok(words)
}

// Sets the values that are given.
fn set_all(constants: &[Declared], given: &[ConstValue], words: &mut [Word])
    requires lawful { All (λ own. IsLawful own.sort) constants.now }
    requires sorts { sorts_of words.old ≡ map (λ own. own.sort) constants.now }
    requires fit { All (Fit constants.now) given.now }
    ensures values { values_of words.new ≡ filled (values_of words.old) given.now }
    ensures sorts { sorts_of words.new ≡ sorts_of words.old }
{
    'values: for value in given {
        set_one(constants, *value, words);
    }
}

// Sets one of them.
fn set_one(constants: &[Declared], value: ConstValue, words: &mut [Word])
    requires lawful { All (λ own. IsLawful own.sort) constants.now }
    requires sorts { sorts_of words.old ≡ map (λ own. own.sort) constants.now }
    requires fit { Fit constants.now value }
    ensures values { values_of words.new
        ≡ set (values_of words.old) value.index (word_value value.word) }
    ensures sorts { sorts_of words.new ≡ sorts_of words.old }
{
    let at = value.index as usize;
    words[at] = Word::new(constants[at].sort, value.word.value()).unwrap();
}
