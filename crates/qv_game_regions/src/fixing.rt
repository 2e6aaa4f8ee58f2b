//! Regions that fix bits of places to those of a point.

ghost use Rattle.std.specs.Prelude.{◌≡◌, ◌<◌, ◌≤◌, Some, All, IfOk, IsSomeAnd, length, map};
ghost use Rattle.std.specs.Prelude.{slice_get};
ghost use Rattle.qv_words.specs.declared.sort.Sort.TheVariants.{Bool as BoolSort};
ghost use Rattle.qv_words.specs.Sort.{width_of};
ghost use Rattle.qv_words.specs.Word.{word_sort, word_value};
ghost use Rattle.qv_words.specs.Tree.{tree_sort};
ghost use Rattle.qv_words.specs.Linked.{fixing};
ghost use Rattle.qv_words.specs.Problem.{conjunction, conjunction_with};
ghost use Rattle.qv_store.specs.Nodes.{tree_at};
ghost use Rattle.qv_store.specs.Stores.{AreShared, Grows, StandsAt};
ghost use Rattle.qv_game_regions.specs.Runs.{fixed_part, fixed_sort, fixed_value, fixing_at, run_of};
ghost use Rattle.qv_game_regions.specs.Runs.{IsRunAt, IsRunIn};

use crate::putting::{put_and, put_application, put_literal};
use crate::run::Run;
use qv_store::{Id, NoMemory, Node, Store};
use qv_words::{Op, Sort, Word, apply};
use std::alloc::Global;

/// The region that fixes these bits to those of the point: the conjunction of an equation for each
/// run, in order. Also where memory runs out the store keeps what was put.
pub fn fix(alloc: Global, store: &mut Store, point: &[Word], runs: &[Run]) -> Result<Id, NoMemory>
    requires { All (λ run. IsRunAt point.now (run_of run)) runs.now }
    ensures id { IfOk result (λ id. StandsAt store.new id
        (conjunction (map (fixing_at point.now) runs.now))) }
    ensures grows { Grows store.old store.new }
    ensures shared { AreShared store.new }
{
    match runs {
        [] => put_literal(store, Word::truth(true)),
        [first, rest @ ..] => fix_more(alloc, store, point, *first, rest),
    }
}

// The same where there are runs.
fn fix_more(
    alloc: Global,
    store: &mut Store,
    point: &[Word],
    first: Run,
    rest: &[Run],
) -> Result<Id, NoMemory>
    requires first { IsRunAt point.now (run_of first) }
    requires rest { All (λ run. IsRunAt point.now (run_of run)) rest.now }
    ensures id { IfOk result (λ id. StandsAt store.new id
        (conjunction_with (fixing_at point.now first) (map (fixing_at point.now) rest.now))) }
    ensures grows { Grows store.old store.new }
    ensures shared { AreShared store.new }
{
    let _few = store.len();
    let mut region = fix_run(alloc, store, point, first)?;
    'runs: for run in rest {
        let equation = fix_run(alloc, store, point, *run)?;
        region = put_and(alloc, store, region, equation)?;
    }
    Ok(region)
}

// The equation of one run.
fn fix_run(alloc: Global, store: &mut Store, point: &[Word], run: Run) -> Result<Id, NoMemory>
    requires { IsRunAt point.now (run_of run) }
    ensures id { IfOk result (λ id. StandsAt store.new id (fixing_at point.now run)) }
    ensures bool { IfOk result (λ id. tree_sort (tree_at store.new id) ≡ Some BoolSort) }
    ensures grows { Grows store.old store.new }
    ensures shared { AreShared store.new }
{
    put_equation(alloc, store, point[run.place as usize], run)
}

// The equation of a run of a place that has this word.
fn put_equation(alloc: Global, store: &mut Store, word: Word, run: Run) -> Result<Id, NoMemory>
    requires { IsRunIn (word_sort word) (run_of run) }
    ensures id { IfOk result (λ id. StandsAt store.new id
        (fixing (word_sort word) (word_value word) (run_of run))) }
    ensures bool { IfOk result (λ id. tree_sort (tree_at store.new id) ≡ Some BoolSort) }
    ensures grows { Grows store.old store.new }
    ensures shared { AreShared store.new }
{
    let part = put_part(alloc, store, word.sort(), run)?;
    let value = put_literal(store, kept_bits(word, run))?;
    put_application(alloc, store, Op::Equal, &[part, value])
}

// The bits of a run as a term.
fn put_part(alloc: Global, store: &mut Store, sort: Sort, run: Run) -> Result<Id, NoMemory>
    requires { IsRunIn sort (run_of run) }
    ensures id { IfOk result (λ id. StandsAt store.new id (fixed_part sort (run_of run))) }
    ensures grows { Grows store.old store.new }
    ensures shared { AreShared store.new }
{
    let place = store.put(Node::Var {
        level: run.place,
        sort,
    })?;
    match sort {
        Sort::Bool => Ok(place),
        Sort::Bits(_) => put_application(alloc, store, extraction(run), &[place]),
    }
}

// The operator that takes the bits of a run.
fn extraction(run: Run) -> Op
    ensures { result ≡ Op.Extract run.high run.low }
{
    Op::Extract(u128::from(run.high), u128::from(run.low))
}

// The bits that a word has in a run.
fn kept_bits(word: Word, run: Run) -> Word
    requires { IsRunIn (word_sort word) (run_of run) }
    ensures sort { word_sort result ≡ fixed_sort (word_sort word) (run_of run) }
    ensures value { word_value result
        ≡ fixed_value (word_sort word) (word_value word) (run_of run) }
{
    match word.sort() {
        Sort::Bool => word,
        Sort::Bits(_) => apply(extraction(run), &[word]),
    }
}
