//! The lines that a check writes.

ghost use Rattle.std.specs.Prelude.{◌≡◌, IfOk};
ghost use Rattle.qv_check_defs.specs.Outcome.{answer_line, kind_word, refused_line};

use qv_cert::RefusalKind;
use qv_words::Answer;
use std::alloc::{AllocError, Global};

/// The line of an answer.
pub fn answer_line(answer: Answer) -> &'static [u8]
    ensures { result.now ≡ answer_line answer }
{
    match answer {
        Answer::Sat => b"sat\n",
        Answer::Unsat => b"unsat\n",
        Answer::Unknown => b"unknown\n",
    }
}

/// The line of a refusal at this line of the certificate.
pub fn refused_line(alloc: Global, number: u64, kind: RefusalKind) -> Result<Vec<u8>, AllocError>
    ensures { IfOk result (λ line. line.items ≡ refused_line number kind) }
{
    let line = match kind {
        RefusalKind::Rat { hint } => format!(in alloc; "refused {number} rat {hint}\n")?,
        RefusalKind::Hint { hint } => format!(in alloc; "refused {number} hint {hint}\n")?,
        _ => {
            let word = kind_word(kind);
            format!(in alloc; "refused {number} {word}\n")?
        }
    };
    Ok(line.into_bytes())
}

// The name of a kind.
fn kind_word(kind: RefusalKind) -> &'static str
    ensures { result.now ≡ kind_word kind }
{
    match kind {
        RefusalKind::Truncated => "truncated",
        RefusalKind::Header => "header",
        RefusalKind::Form => "form",
        RefusalKind::Operator => "operator",
        RefusalKind::Rule => "rule",
        RefusalKind::Literal => "literal",
        RefusalKind::Section => "section",
        RefusalKind::Order => "order",
        RefusalKind::Node => "node",
        RefusalKind::Place => "place",
        RefusalKind::Repeated => "repeated",
        RefusalKind::Eigenvariable => "eigenvariable",
        RefusalKind::Parent => "parent",
        RefusalKind::Quantifier => "quantifier",
        RefusalKind::Rank => "rank",
        RefusalKind::Sort => "sort",
        RefusalKind::Dependence => "dependence",
        RefusalKind::Missing => "missing",
        RefusalKind::Variables => "variables",
        RefusalKind::Id => "id",
        RefusalKind::Rat { .. } => "rat",
        RefusalKind::Hint { .. } => "hint",
        RefusalKind::Open => "open",
        RefusalKind::Refutation => "refutation",
    }
}
