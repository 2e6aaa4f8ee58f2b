//! The clauses of a file.

ghost use Rattle.std.specs.Prelude.{◌≡◌, ◌≤◌, ◌++◌, ◌∷◌, ◌&&◌, ℕ, [], List, IfOk, IfSome, length};
ghost use Rattle.qv_cnf.specs.Literal.{Literal};
ghost use Rattle.qv_lrat_text.specs.Grammar.{literal_in};
ghost use Rattle.qv_dimacs.specs.Clauses.{is_none, begun};
ghost use Rattle.qv_qdimacs.specs.Text.{Said, File, are_some, wrong_word, with_literal};
ghost use Rattle.qv_qdimacs.specs.Text.{clauses_from};
ghost use Rattle.qv_qdimacs.specs.Ahead.{words_at};
ghost use Rattle.qv_qdimacs.specs.Answers.{Answers, behind_clause, IsFurther};

use crate::faults::{QdimacsFault, QdimacsKind};
use crate::files::Qdimacs;
use crate::lexing::next_word;
use qv_cnf::{Lit, Packed};
use qv_lrat_text::decimal::read_i64;
use qv_lrat_text::words::is_byte_word;

/// Reads the clauses from a place on.
pub(crate) fn read_clauses(
    text: &[u8],
    at: usize,
    file: &mut Qdimacs,
    lits: &mut Vec<Lit>,
) -> Result<(), QdimacsFault>
    requires within { at ≤ length text.now }
    ensures { Answers (clauses_from file.old.prefix.items file.old.clauses 0 []
        (words_at text.now at)) result (λ _. File file.new.prefix.items file.new.clauses) }
{
    let mut end = at;
    lits.clear();
    'clauses: while let Some(next) = read_clause(text, end, file, lits)? {
        file.clauses.push(lits)?;
        lits.clear();
        end = next;
    }
    Ok(())
}

// Reads a clause, and answers where it ends; `None` where the clauses end.
fn read_clause(
    text: &[u8],
    at: usize,
    file: &Qdimacs,
    lits: &mut Vec<Lit>,
) -> Result<Option<usize>, QdimacsFault>
    requires within { at ≤ length text.now }
    requires none { lits.old.items ≡ [] }
    ensures said { Answers (clauses_from file.now.prefix.items file.now.clauses 0 []
        (words_at text.now at)) result
        (behind_clause file.now.prefix.items file.now.clauses lits.new.items text.now) }
    ensures further { IfOk result (λ end. IfSome end (IsFurther text.now at)) }
{
    let mut end = at;
    let mut start = 0;
    'words: while let Some(word) = next_word(text, end) {
        let letters = &text[word.begin..word.end];
        end = word.end;
        if is_byte_word(letters, b'0') {
            return Ok(Some(end));
        }
        if lits.is_empty() && is_byte_word(letters, b'%') {
            return Ok(None);
        }
        let behind = has_clause(&file.clauses);
        add_literal(letters, word.begin, behind, &mut start, lits)?;
    }
    if lits.is_empty() {
        return Ok(None);
    }
    Err(QdimacsFault::At {
        place: start as u64,
        kind: QdimacsKind::Unfinished,
    })
}

// Whether there is a clause.
fn has_clause(clauses: &Packed) -> bool
    ensures { result ≡ are_some clauses.now }
{
    clauses.len() > 0
}

// Adds the literal that a word is, which stands at a place, and sets where the clause begins.
fn add_literal(
    word: &[u8],
    place: usize,
    behind: bool,
    start: &mut usize,
    lits: &mut Vec<Lit>,
) -> Result<(), QdimacsFault>
    ensures { (goes_on : ℕ → List Literal → Said) →
        Answers (with_literal place (wrong_word (is_none lits.old.items && behind) word.now)
        (literal_in word.now)
        (λ lit. goes_on (begun start.old lits.old.items place) (lits.old.items ++ lit ∷ [])))
        result (λ _. goes_on start.new lits.new.items) }
{
    let Some(lit) = literal(word) else {
        return Err(QdimacsFault::At {
            place: place as u64,
            kind: wrong_word(lits.is_empty() && behind, word),
        });
    };
    if lits.is_empty() {
        *start = place;
    }
    lits.push(lit)?;
    Ok(())
}

// The literal that a word is.
#[tactic(auto, unfolding(qv_lrat_text::specs::Grammar::literal_in))]
fn literal(word: &[u8]) -> Option<Lit>
    ensures { result ≡ literal_in word.now }
{
    let number = read_i64(word, u128::from(Lit::MAX_VARIABLE))?;
    Lit::new(number as i32)
}

// What is wrong with a word that is no literal.
fn wrong_word(behind: bool, word: &[u8]) -> QdimacsKind
    ensures { result ≡ wrong_word behind word.now }
{
    if behind && (is_byte_word(word, b'a') || is_byte_word(word, b'e')) {
        QdimacsKind::Quantifier
    } else {
        QdimacsKind::Number
    }
}
