//! Laws of the grammar.

ghost use Rattle.std.specs.Prelude.{◌≡◌, ◌↔◌, ℕ, List, Some};
ghost use Rattle.qv_cnf.specs.LratLine.{LratLine};
ghost use Rattle.qv_lrat_text.specs.Grammar.{lrat_line, IsLine, IsTextOf};
ghost use Rattle.qv_lrat_text.specs.Spelling.{spelling};
ghost use Rattle.qv_lrat_text.specs.Words.{words, IsSpaced};

/// A text has these words exactly where it is these words with blanks between them.
pub fn words_are_spaced()
    ensures { (text : List ℕ) (found : List (List ℕ)) → (words text ≡ found) ↔ IsSpaced text found }
{}

/// A text is read as a line exactly where its words are those of the line.
pub fn line_is_text()
    ensures { (text : List ℕ) (line : LratLine) → (lrat_line text ≡ Some line)
        ↔ IsTextOf line text }
{}

/// The spelling of a line reads as the line.
pub fn spelling_reads()
    ensures { (line : LratLine) → IsLine line → lrat_line (spelling line) ≡ Some line }
{}
