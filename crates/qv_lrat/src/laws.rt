//! What accepted proofs show, as contracts.

ghost use Rattle.qv_lrat.specs.Laws.{AcceptedExactly, AcceptedHaveNoModel, DoneShowsNoModel};

/// A proof is accepted exactly where its lines refute the clauses.
pub fn accepted_exactly()
    ensures { AcceptedExactly }
{}

/// Clauses of which a proof is accepted have no model.
pub fn accepted_have_no_model()
    ensures { AcceptedHaveNoModel }
{}

/// A check that ends with status 0 shows that the text's clauses have no model.
pub fn done_shows_no_model()
    ensures { DoneShowsNoModel }
{}
