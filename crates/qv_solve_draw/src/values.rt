//! The values of constants that Skolem terms give.

ghost use Rattle.std.specs.Prelude.{◌≡◌, ◌<◌, ◌+◌, All, IfOk, IfSome, length, option_map};
ghost use Rattle.qv_words.specs.Problem.{Existential};
ghost use Rattle.qv_words.specs.Skolem.{goal_of, term_of, SkolemOk};
ghost use Rattle.qv_words.specs.GameLaws.{WinsFrom};
ghost use Rattle.qv_store.specs.Nodes.{tree_at};
ghost use Rattle.qv_store.specs.Problems.{problem_in, IsPosedIn};
ghost use Rattle.qv_skolem.specs.Skolems.{skolems_in, IsNeverTrue};
ghost use Rattle.qv_solve_draw.specs.Values.{AreExistential, HaveSorts, IsWordOfTerm};
ghost use Rattle.qv_solve_draw.specs.Values.{indices_of, values_of};

use qv_skolem::Skolem;
use qv_store::{Id, NoMemory, Problem, Store};
use qv_words::Word;
use std::alloc::Global;

/// The value of the constant of this index.
#[derive(Clone, Copy, Debug, PartialEq, Eq)]
pub struct ConstValue {
    pub index: u64,
    pub word: Word,
}

/// The values of a problem's constants, which are the first places: those of their Skolem terms,
/// which have no variables, since no universal place comes before. From them the existential player
/// wins, where the terms' goal is never true.
pub fn constants(
    alloc: Global,
    store: &Store,
    problem: &Problem,
    terms: &[Skolem],
) -> Result<Vec<ConstValue>, NoMemory>
    requires posed { IsPosedIn store.now problem.now }
    requires first { AreExistential (problem_in store.now problem.now)
        (length problem.now.constants.items) }
    requires below { All (λ s. s.term < length store.now) terms.now }
    requires section { SkolemOk (problem_in store.now problem.now)
        (skolems_in store.now terms.now) }
    requires goal { IsNeverTrue (goal_of (problem_in store.now problem.now)
        (skolems_in store.now terms.now)) }
    ensures indices { IfOk result (λ values.
        indices_of values.items ≡ problem.now.constants.items) }
    ensures sorts { IfOk result (λ values.
        HaveSorts (problem_in store.now problem.now) values.items) }
    ensures wins { IfOk result (λ values.
        WinsFrom (problem_in store.now problem.now) Existential (values_of values.items)) }
{
    let mut values = Vec::with_capacity(alloc, problem.constants.len())?;
    'constants: for (place, index) in problem.constants.iter().enumerate() {
        let word = word_at(store, problem, terms, place as u64)?;
        values.push(ConstValue {
            index: *index,
            word,
        })?;
    }
    Ok(values)
}

// The word that the term of an existential place means, behind such places alone.
fn word_at(
    store: &Store,
    _problem: &Problem,
    terms: &[Skolem],
    place: u64,
) -> Result<Word, NoMemory>
    requires first { AreExistential (problem_in store.now _problem.now) (place + 1) }
    requires below { All (λ s. s.term < length store.now) terms.now }
    requires section { SkolemOk (problem_in store.now _problem.now)
        (skolems_in store.now terms.now) }
    ensures { IfOk result (IsWordOfTerm (problem_in store.now _problem.now)
        (skolems_in store.now terms.now) place) }
{
    let Some(term) = term_at(store, _problem, terms, place) else {
        unreachable!()
    };
    store.eval_at(term, &[], &[])
}

// The term of a place. Behind such places alone it mostly stands at its own.
fn term_at(_store: &Store, _problem: &Problem, terms: &[Skolem], place: u64) -> Option<Id>
    requires below { All (λ s. s.term < length _store.now) terms.now }
    requires section { SkolemOk (problem_in _store.now _problem.now)
        (skolems_in _store.now terms.now) }
    ensures term { term_of (skolems_in _store.now terms.now) place
        ≡ option_map (tree_at _store.now) result }
    ensures below { IfSome result (λ id. id < length _store.now) }
{
    if let Some(term) = terms.get(place as usize) {
        if term.place == place {
            return Some(term.term);
        }
    }
    term_among(_store, terms, place)
}

// The term of a place, wherever it stands.
fn term_among(_store: &Store, terms: &[Skolem], place: u64) -> Option<Id>
    requires below { All (λ s. s.term < length _store.now) terms.now }
    ensures term { term_of (skolems_in _store.now terms.now) place
        ≡ option_map (tree_at _store.now) result }
    ensures below { IfSome result (λ id. id < length _store.now) }
{
    'terms: for term in terms {
        if term.place == place {
            return Some(term.term);
        }
    }
    None
}
