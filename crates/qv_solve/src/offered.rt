//! The words that are offered for constants.

use qv_store::NoMemory;
use qv_words::Word;
use std::alloc::Global;

// Those of these constants, in order; none where one of them has none.
pub(crate) fn words_for(alloc: Global, constants: &[u64], offered: &[Option<Word>]) -> Vec<Word> {
    match words_of(alloc, constants, offered) {
        Ok(Some(words)) => words,
        _ => Vec::new(alloc),
    }
}

// The same, where each has one.
fn words_of(
    alloc: Global,
    constants: &[u64],
    offered: &[Option<Word>],
) -> Result<Option<Vec<Word>>, NoMemory> {
    if offered.is_empty() {
        return Ok(None);
    }
    let mut words = Vec::with_capacity(alloc, constants.len())?;
    'constants: for index in constants {
        match word_at(offered, *index) {
            Some(word) => words.push(word)?,
            None => return Ok(None),
        }
    }
    Ok(Some(words))
}

// The word that is offered for a constant.
fn word_at(offered: &[Option<Word>], index: u64) -> Option<Word> {
    *offered.get(index as usize)?
}
