//! Why a certificate is refused.

/// The kinds of refusal, in the order in which they are tried. The hint of a kind is its position,
/// from 1.
#[derive(Clone, Copy, Debug, PartialEq, Eq)]
pub enum RefusalKind {
    Truncated,
    Header,
    Form,
    Operator,
    Rule,
    Literal,
    Section,
    Order,
    Node,
    Place,
    Repeated,
    Eigenvariable,
    Parent,
    Quantifier,
    Rank,
    Sort,
    Dependence,
    Missing,
    Variables,
    Id,
    Rat { hint: u64 },
    Hint { hint: u64 },
    Open,
    Refutation,
}
