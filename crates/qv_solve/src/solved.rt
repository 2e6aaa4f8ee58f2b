//! Answers with sections.

use qv_cert::Section;
use qv_meter::SpentKind;
use qv_solve_draw::ConstValue;

/// An answer, with the lines of its section, and the greatest variable of the clauses that these
/// refute. With `Sat` come values of the constants, with `Unknown` what was spent.
#[derive(Debug, Drop)]
pub enum Solved {
    Sat {
        section: Section,
        constants: Vec<ConstValue>,
        variables: u32,
    },
    Unsat {
        section: Section,
        variables: u32,
    },
    Unknown {
        section: Section,
        kind: SpentKind,
    },
}
