//! What is known of the translation for every file: each function's contract is a law.

ghost use Rattle.std.specs.Prelude.{◌≡◌, ℕ, List};
ghost use Rattle.qv_cnf.specs.Literal.{Literal};
ghost use Rattle.qv_qdimacs.specs.declared.files.Quantified.{Quantified};
ghost use Rattle.qv_qdimacs.specs.Outer.{AreOnce, variables_of};
ghost use Rattle.qv_qdimacs.specs.Text.{File, qdimacs_of};
ghost use Rattle.qv_qdimacs.specs.Laws.{
  TranslationKeepsMeaning,
  FormulaIsAssertion,
  TranslationKeepsTruth,
};

/// Under values of the outer variables the formula means 1 exactly where the rest of the prefix
/// holds under them, and 0 otherwise.
pub fn translation_keeps_meaning()
    ensures { TranslationKeepsMeaning }
{}

/// The formula of a file can be asserted, and its constants have one sort each.
pub fn formula_is_assertion()
    ensures { FormulaIsAssertion }
{}

/// The formula of a file is true for some values of its constants exactly where the file is true.
pub fn translation_keeps_truth()
    ensures { TranslationKeepsTruth }
{}

/// No text gives a file with a variable twice in its prefix.
pub fn prefixes_are_once()
    ensures { (text : List ℕ) (prefix : List Quantified) (clauses : List (List Literal)) →
        qdimacs_of text ≡ File prefix clauses → AreOnce (variables_of prefix) }
{}
