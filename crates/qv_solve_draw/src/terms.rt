//! The lines of the Skolem terms that are drawn from entries.

ghost use Rattle.std.specs.Prelude.{◌≡◌, ◌<◌, ◌≤◌, ◌^◌, All, IfOk, OnOk, length};
ghost use Rattle.qv_words.specs.declared.op.Answer.TheVariants.{Sat};
ghost use Rattle.qv_words.specs.Problem.{Existential};
ghost use Rattle.qv_words.specs.Skolem.{goal_of};
ghost use Rattle.qv_words.specs.Linked.{chain};
ghost use Rattle.qv_words.specs.GameLaws.{HasWon};
ghost use Rattle.qv_store.specs.Problems.{problem_in, IsPosedIn};
ghost use Rattle.qv_store.specs.Stores.{Grows};
ghost use Rattle.qv_entries.specs.Rows.{entries_in, IsRowIn};
ghost use Rattle.qv_meter.specs.Played.{IsPlayed};
ghost use Rattle.qv_cert.specs.Listed.{listed_by};
ghost use Rattle.qv_skolem.specs.Skolems.{skolems_in, IsNeverTrue};
ghost use Rattle.qv_solve_write.specs.Said.{lines_said};
ghost use Rattle.qv_solve_draw.specs.Drawing.{IsListing};

use qv_entries::Entries;
use qv_skolem::{Skolem, skolems};
use qv_solve_write::{Writing, term_lines};
use qv_store::{NoMemory, Problem, Store};
use std::alloc::Global;

/// Skolem terms, and the lines that list them.
#[derive(Debug, Drop)]
pub struct TermsDrawn {
    pub terms: Vec<Skolem>,
    pub written: Writing,
}

/// The Skolem terms that are drawn from the entries that play left, where the existential player
/// has won the problem, and the lines that list them. Also where memory runs out the store keeps
/// what was put.
pub fn draw_terms(
    alloc: Global,
    store: &mut Store,
    problem: &Problem,
    entries: &Entries,
) -> Result<TermsDrawn, NoMemory>
    requires posed { IsPosedIn store.old problem.now }
    requires few { length problem.now.prefix.items ≤ 2 ^ 62 }
    requires rows { All (IsRowIn store.old) entries.now }
    requires played { IsPlayed (problem_in store.old problem.now)
        (entries_in store.old entries.now) }
    requires won { HasWon (problem_in store.old problem.now) Existential
        (entries_in store.old entries.now) }

    // The terms, and that the lines list them.
    ensures below { IfOk result (λ drawn. All (λ s. s.term < length store.new)
        drawn.terms.items) }
    ensures chain { IfOk result (λ drawn. skolems_in store.new drawn.terms.items
        ≡ chain (problem_in store.old problem.now) (entries_in store.old entries.now)) }
    ensures terms { IfOk result (λ drawn. (listed_by (problem_in store.old problem.now)
        (lines_said drawn.written.lines.items)).terms
        ≡ chain (problem_in store.old problem.now) (entries_in store.old entries.now)) }

    // They may begin a sat section, and its goal is never true.
    ensures listing { IfOk result (λ drawn. IsListing store.new
        (problem_in store.old problem.now) Sat drawn.written) }
    ensures goal { OnOk result (IsNeverTrue (goal_of (problem_in store.old problem.now)
        (chain (problem_in store.old problem.now) (entries_in store.old entries.now)))) }
    ensures grows { Grows store.old store.new }
{
    let terms = skolems(alloc, store, problem, entries)?;
    let written = term_lines(alloc, store, problem, &terms)?;
    Ok(TermsDrawn { terms, written })
}
