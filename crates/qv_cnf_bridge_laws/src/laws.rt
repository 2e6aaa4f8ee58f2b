//! What is known of the bridge between the two kinds of literals: each function's contract is a
//! law.

ghost use Rattle.qv_cnf_bridge_laws.specs.BridgeLaws.{ValuesStay, ListsStay, LiteralsStayApart};

/// Clauses are true under the same values on both sides.
pub fn values_stay()
    ensures { ValuesStay }
{}

/// A list put together stays put together.
pub fn lists_stay()
    ensures { ListsStay }
{}

/// Literals that differ stay so, and negations stay negations.
pub fn literals_stay_apart()
    ensures { LiteralsStayApart }
{}
