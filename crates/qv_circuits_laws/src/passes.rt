//! What is known of passes and nodes: each function's contract is a law.

ghost use Rattle.qv_circuits_laws.specs.PassNodeLaws.{PassAddsNoNodes, PassesAddNoNodes};
ghost use Rattle.qv_circuits_laws.specs.PassNodeLaws.{AllPassesAddNoNodes};

/// A pass adds no distinct nodes to a formula.
pub fn pass_adds_no_nodes()
    ensures { PassAddsNoNodes }
{}

/// Nor do passes in a row to a list of formulas.
pub fn passes_add_no_nodes()
    ensures { PassesAddNoNodes }
{}

/// Nor do all ten in their order.
pub fn all_passes_add_no_nodes()
    ensures { AllPassesAddNoNodes }
{}
