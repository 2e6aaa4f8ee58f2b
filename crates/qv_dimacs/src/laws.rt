//! Laws of texts.

ghost use Rattle.std.specs.Prelude.{◌≡◌, ℕ, List};
ghost use Rattle.qv_dimacs.specs.Clauses.{dimacs_of};
ghost use Rattle.qv_dimacs.specs.Machine.{run, start_state};

// Byte by byte a text is read as what it says.
pub(crate) fn text_is_read()
    ensures { (text : List ℕ) → run start_state text ≡ dimacs_of text }
{}
