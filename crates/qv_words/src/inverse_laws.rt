//! What is known of inverse terms: each function's contract is a law.

ghost use Rattle.qv_words.specs.InverseLaws.{RowsAreThere, RowsFit, RowsSolve};

/// Which operators have an inverse term, for each of their arguments.
pub fn rows_are_there()
    ensures { RowsAreThere }
{}

/// An inverse term is a sorted tree over the other argument and the target, of the sort of the
/// argument that it is for.
pub fn rows_fit()
    ensures { RowsFit }
{}

/// Wherever some value of the argument gives the target, the inverse term's value does: each
/// operator at each width.
pub fn rows_solve()
    ensures { RowsSolve }
{}
