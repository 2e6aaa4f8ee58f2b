//! The parts of a file's prefix.

ghost use Rattle.std.specs.Prelude.{◌≡◌, ◌≤◌, ◌++◌, ◌∷◌, ◌^◌, [], List, None, IfOk, OnOk, length};
ghost use Rattle.qv_qdimacs.specs.declared.files.Quantified.{Quantified};
ghost use Rattle.qv_lrat_text.specs.Decimal.{number_from};
ghost use Rattle.qv_qdimacs.specs.Text.{Said, quantifier_in, with_variable};
ghost use Rattle.qv_qdimacs.specs.Text.{parts_from, clauses_from};
ghost use Rattle.qv_qdimacs.specs.Ahead.{words_at};
ghost use Rattle.qv_qdimacs.specs.Answers.{Answers, AreSeen, part_of, quantified, IsFurther};

use crate::faults::{QdimacsFault, QdimacsKind};
use crate::files::Quantified;
use crate::lexing::next_word;
use qv_cnf::Lit;
use qv_lrat_text::decimal::read_number;
use qv_lrat_text::words::is_byte_word;
use qv_store::Quant;
use std::collections::HashSet;

// The quantifier that a word is.
fn quantifier(word: &[u8]) -> Option<Quant>
    ensures { result ≡ quantifier_in word.now }
{
    if is_byte_word(word, b'a') {
        Some(Quant::Forall)
    } else if is_byte_word(word, b'e') {
        Some(Quant::Exists)
    } else {
        None
    }
}

/// Reads the parts from a place on, up to a word that begins none.
pub(crate) fn read_parts(
    text: &[u8],
    at: usize,
    prefix: &mut Vec<Quantified>,
    seen: &mut HashSet<u32>,
) -> Result<usize, QdimacsFault>
    requires within { at ≤ length text.now }
    requires seen { AreSeen seen.old prefix.old.items }
    ensures said { Answers (parts_from prefix.old.items None (words_at text.now at)) result
        (λ end. clauses_from prefix.new.items [] 0 [] (words_at text.now end)) }
    ensures within { IfOk result (λ end. end ≤ length text.now) }
{
    let mut end = at;
    'parts: while let Some(word) = next_word(text, end) {
        let Some(quant) = quantifier(&text[word.begin..word.end]) else {
            return Ok(end);
        };
        end = read_part(text, word.end, word.begin, quant, prefix, seen)?;
    }
    Ok(end)
}

// Reads a part from behind its quantifier, which stands at `begin`.
fn read_part(
    text: &[u8],
    at: usize,
    begin: usize,
    quant: Quant,
    prefix: &mut Vec<Quantified>,
    seen: &mut HashSet<u32>,
) -> Result<usize, QdimacsFault>
    requires within { at ≤ length text.now }
    requires seen { AreSeen seen.old prefix.old.items }
    ensures said { Answers (parts_from prefix.old.items (part_of quant begin)
        (words_at text.now at)) result
        (λ end. parts_from prefix.new.items None (words_at text.now end)) }
    ensures seen { OnOk result (AreSeen seen.new prefix.new.items) }
    ensures further { IfOk result (IsFurther text.now at) }
{
    let mut end = at;
    'words: while let Some(word) = next_word(text, end) {
        let letters = &text[word.begin..word.end];
        end = word.end;
        if is_byte_word(letters, b'0') {
            return Ok(end);
        }
        add_variable(letters, word.begin, quant, prefix, seen)?;
    }
    Err(QdimacsFault::At {
        place: begin as u64,
        kind: QdimacsKind::Unfinished,
    })
}

// Adds the variable that a word is, which stands at a place.
fn add_variable(
    word: &[u8],
    place: usize,
    quant: Quant,
    prefix: &mut Vec<Quantified>,
    seen: &mut HashSet<u32>,
) -> Result<(), QdimacsFault>
    requires { AreSeen seen.old prefix.old.items }
    ensures said { (goes_on : List Quantified → Said) →
        Answers (with_variable place prefix.old.items (number_from 1 (2 ^ 30) word.now)
        (λ v. goes_on (prefix.old.items ++ quantified quant v ∷ [])))
        result (λ _. goes_on prefix.new.items) }
    ensures seen { OnOk result (AreSeen seen.new prefix.new.items) }
{
    let Some(number) = read_number(word, 1, u128::from(Lit::MAX_VARIABLE)) else {
        return Err(QdimacsFault::At {
            place: place as u64,
            kind: QdimacsKind::Number,
        });
    };
    let variable = number as u32;
    if !seen.insert(variable)? {
        return Err(QdimacsFault::At {
            place: place as u64,
            kind: QdimacsKind::Repeated,
        });
    }
    prefix.push(Quantified { quant, variable })?;
    Ok(())
}
