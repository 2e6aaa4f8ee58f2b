//! Lines are read.

ghost use Rattle.std.specs.Prelude.{◌≡◌, ◌≢◌, [], Some, None, IfOk, IsErrOf, MatchResult};
ghost use Rattle.qv_cnf.specs.LratLine.{line_of};
ghost use Rattle.qv_lrat_text.specs.Grammar.{numbers_to_zero, addition, deletion, behind_id};
ghost use Rattle.qv_lrat_text.specs.Grammar.{line_of_words, without_lf, lrat_line, IsLine};
ghost use Rattle.qv_lrat_text.specs.Reading.{Gives};
ghost use Rattle.qv_lrat_text.specs.Words.{words};

use crate::fault::LineFault;
use crate::line_reader::LineReader;
use crate::number::Number;
use crate::words::{is_byte_word, split_word};
use qv_cnf::Step;
use std::alloc::Global;

// How many bytes a number takes with the blank behind it, where it is a short one.
const SHORT_WORD: usize = 4;

// The numbers up to the word `0`, in the memory of a list of others, and what comes after it.
fn numbers<T: Number>(list: Vec<T>, text: &[u8]) -> Result<(Vec<T>, &[u8]), LineFault>
    ensures { Gives (λ parts. (parts.0.items, words parts.1.now)) result
        (numbers_to_zero T.meaning (words text.now)) }
{
    let mut numbers = list;
    numbers.clear();
    numbers.reserve(text.len() / SHORT_WORD + 1)?;
    let mut rest = text;
    while let Some((word, after)) = split_word(rest) {
        if is_byte_word(word, b'0') {
            return Ok((numbers, after));
        }
        let Some(number) = T::read(word) else {
            return Err(LineFault::Form);
        };
        numbers.push(number)?;
        rest = after;
    }
    Err(LineFault::Form)
}

// Refuses a text that has a word.
fn no_word(text: &[u8]) -> Result<(), LineFault>
    ensures { MatchResult result (λ _. words text.now ≡ []) (λ fault. (fault ≡ LineFault.Form)
        × (words text.now ≢ [])) }
{
    match split_word(text) {
        None => Ok(()),
        Some(_) => Err(LineFault::Form),
    }
}

// `LITERALS 0 HINTS 0`, behind the id.
fn addition(reader: &mut LineReader, id: u64, text: &[u8]) -> Result<Step, LineFault>
    ensures { Gives line_of result (addition id (words text.now)) }
{
    let (lits, rest) = numbers(reader.lits(), text)?;
    let (hints, rest) = numbers(reader.hints(), rest)?;
    no_word(rest)?;
    Ok(Step::Add { id, lits, hints })
}

// `IDS 0`, behind the id and the word `d`.
fn deletion(reader: &mut LineReader, id: u64, text: &[u8]) -> Result<Step, LineFault>
    ensures { Gives line_of result (deletion id (words text.now)) }
{
    let (ids, rest) = numbers(reader.ids(), text)?;
    no_word(rest)?;
    Ok(Step::Delete { id, ids })
}

// What stands behind the id.
fn behind_id(reader: &mut LineReader, id: u64, text: &[u8]) -> Result<Step, LineFault>
    ensures { Gives line_of result (behind_id id (words text.now)) }
{
    match split_word(text) {
        None => Err(LineFault::Form),
        Some((word, rest)) => {
            if is_byte_word(word, b'd') {
                deletion(reader, id, rest)
            } else {
                addition(reader, id, text)
            }
        }
    }
}

// The text without the LF at its end, where one stands there.
fn without_lf(text: &[u8]) -> &[u8]
    ensures { result.now ≡ without_lf text.now }
{
    match text {
        [front @ .., b'\n'] => front,
        _ => text,
    }
}

// The line that these words are.
fn line_of_words(reader: &mut LineReader, text: &[u8]) -> Result<Step, LineFault>
    ensures { Gives line_of result (line_of_words (words text.now)) }
{
    let Some((word, rest)) = split_word(text) else {
        return Err(LineFault::Form);
    };
    let Some(id) = u64::read(word) else {
        return Err(LineFault::Form);
    };
    behind_id(reader, id, rest)
}

// The step that the line says, in the memory of the reader.
#[tactic(auto, unfolding(crate::specs::Grammar::lrat_line))]
pub(crate) fn read_step(reader: &mut LineReader, line: &[u8]) -> Result<Step, LineFault>
    ensures read { IfOk result (λ step. lrat_line line.now ≡ Some (line_of step)) }
    ensures in_range { IfOk result (λ step. IsLine (line_of step)) }
    ensures form { IsErrOf result LineFault.Form → lrat_line line.now ≡ None }
{
    line_of_words(reader, without_lf(line))
}

/// The step that the line says: the text of one line, with or without its LF.
pub fn read_line(alloc: Global, line: &[u8]) -> Result<Step, LineFault>
    ensures read { IfOk result (λ step. lrat_line line.now ≡ Some (line_of step)) }
    ensures in_range { IfOk result (λ step. IsLine (line_of step)) }
    ensures form { IsErrOf result LineFault.Form → lrat_line line.now ≡ None }
{
    LineReader::new(alloc).read(line)
}
