//! Which literals a core names.

ghost use Rattle.std.specs.Prelude.{◌≡◌, ◌<◌, ◌^◌, All, IfOk, false, slice_index_or};
ghost use Rattle.qv_cnf.specs.Literal.{index_of, Literal};
ghost use Rattle.qv_cnf.specs.Refutation.{among};

use qv_cnf::Lit;
use std::alloc::{AllocError, Global};

// A table of the places of literals, in which those of a core are marked.
pub(crate) fn marks_of(alloc: Global, core: &[Lit]) -> Result<Vec<bool>, AllocError>
    ensures { IfOk result (λ marks. (l : Literal) →
        slice_index_or marks.items (index_of l) false ≡ among core.now l) }
{
    let mut marks = vec![in alloc; false; room(core)]?;
    'lits: for lit in core {
        marks[lit.index()] = true;
    }
    Ok(marks)
}

// More than the place of any of the literals.
fn room(lits: &[Lit]) -> usize
    ensures above { All (λ l. index_of l < result) lits.now }
    ensures small { result < 2 ^ 32 }
{
    let mut room = 0;
    'lits: for lit in lits {
        if lit.index() >= room {
            room = lit.index() + 1;
        }
    }
    room
}

// Whether the literal is marked.
pub(crate) fn is_marked(marks: &[bool], lit: Lit) -> bool
    ensures { result ≡ slice_index_or marks.now (index_of lit) false }
{
    let index = lit.index();
    index < marks.len() && marks[index]
}
