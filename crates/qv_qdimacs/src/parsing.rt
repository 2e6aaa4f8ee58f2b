//! A text as a file.

ghost use Rattle.std.specs.Prelude.{◌≡◌, ◌≤◌, ◌==◌, ◌∷◌, [], None, false, IfOk, MatchOption};
ghost use Rattle.std.specs.Prelude.{length, slice_index};
ghost use Rattle.qv_dimacs.specs.Text.{lines_from};
ghost use Rattle.qv_dimacs.specs.Clauses.{pass, problem_line, is_cnf, is_numeral, no_comments};
ghost use Rattle.qv_qdimacs.specs.Text.{File, file_of, parts_from, qdimacs_of};
ghost use Rattle.qv_qdimacs.specs.Ahead.{line_at, word_at, words_at};
ghost use Rattle.qv_qdimacs.specs.Answers.{Answers, IsPassed};

use crate::clauses::read_clauses;
use crate::faults::{QdimacsFault, QdimacsKind};
use crate::files::Qdimacs;
use crate::lexing::{Span, first_word, next_in_line};
use crate::parts::read_parts;
use qv_cnf::Packed;
use qv_lrat_text::decimal::read_number;
use qv_lrat_text::words::is_byte_word;
use std::alloc::Global;
use std::collections::HashSet;

// The greatest numeral of a problem line.
const GREATEST: u128 = (1 << 62) - 1;

/// The file that a text says.
#[tactic(auto, unfolding(crate::specs::Text::qdimacs_of))]
pub(crate) fn parse(alloc: Global, text: &[u8]) -> Result<Qdimacs, QdimacsFault>
    ensures { Answers (qdimacs_of text.now) result (λ file. File file.prefix.items file.clauses) }
{
    let mut file = Qdimacs {
        prefix: Vec::new(alloc),
        clauses: Packed::new(alloc),
    };
    fill(alloc, text, &mut file)?;
    Ok(file)
}

// Reads a text into an empty file.
fn fill(alloc: Global, text: &[u8], file: &mut Qdimacs) -> Result<(), QdimacsFault>
    requires prefix { file.old.prefix.items ≡ [] }
    requires clauses { file.old.clauses ≡ [] }
    ensures { Answers (file_of (length text.now) (no_comments (lines_from 0 text.now))) result
        (λ _. File file.new.prefix.items file.new.clauses) }
{
    let prefix = read_problem_line(text)?;
    let mut seen = HashSet::new(alloc);
    let clauses = read_parts(text, prefix, &mut file.prefix, &mut seen)?;
    let mut lits = Vec::new(alloc);
    read_clauses(text, clauses, file, &mut lits)
}

// Reads the problem line, and answers where it ends.
fn read_problem_line(text: &[u8]) -> Result<usize, QdimacsFault>
    ensures said { Answers (file_of (length text.now) (no_comments (lines_from 0 text.now))) result
        (λ end. parts_from [] None (words_at text.now end)) }
    ensures within { IfOk result (λ end. end ≤ length text.now) }
{
    let Some(first) = first_word(text, 0) else {
        return Err(QdimacsFault::At {
            place: text.len() as u64,
            kind: QdimacsKind::Unfinished,
        });
    };
    match problem_line(text, first) {
        Some(end) => Ok(end),
        None => Err(QdimacsFault::At {
            place: first.begin as u64,
            kind: QdimacsKind::ProblemLine,
        }),
    }
}

// Where the line ends that begins with a word, where it is a problem line.
fn problem_line(text: &[u8], first: Span) -> Option<usize>
    requires begins { first.begin ≤ first.end }
    requires within { first.end ≤ length text.now }
    ensures { MatchOption result
        (pass problem_line (word_at text.now first ∷ line_at text.now first.end) ≡ false)
        (IsPassed text.now first) }
{
    if !is_byte_word(&text[first.begin..first.end], b'p') {
        return None;
    }
    let format = next_in_line(text, first.end)?;
    if !is_cnf(&text[format.begin..format.end]) {
        return None;
    }
    let variables = next_in_line(text, format.end)?;
    if !is_numeral(&text[variables.begin..variables.end]) {
        return None;
    }
    let count = next_in_line(text, variables.end)?;
    if !is_numeral(&text[count.begin..count.end]) {
        return None;
    }
    match next_in_line(text, count.end) {
        None => Some(count.end),
        Some(_) => None,
    }
}

// Whether the word is `cnf`.
fn is_cnf(word: &[u8]) -> bool
    ensures { result ≡ is_cnf word.now }
{
    match word {
        [a, b, c] => *a == b'c' && *b == b'n' && *c == b'f',
        _ => false,
    }
}

// Whether the word is a numeral of a problem line.
#[tactic(auto, unfolding(qv_dimacs::specs::Clauses::is_numeral))]
fn is_numeral(word: &[u8]) -> bool
    ensures { result ≡ is_numeral word.now }
{
    (is_byte_word(word, b'0') || !begins_zero(word)) && read_number(word, 0, GREATEST).is_some()
}

// Whether the word begins with a 0.
fn begins_zero(word: &[u8]) -> bool
    ensures { result ≡ (slice_index word.now 0 == 48) }
{
    match word {
        [first, ..] => *first == b'0',
        [] => false,
    }
}
