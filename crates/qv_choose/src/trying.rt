//! The first candidate for a place with which a region stays true at a point.

ghost use Rattle.std.specs.Prelude.{◌≡◌, [], All, IfOk, Some};
ghost use Rattle.qv_words.specs.Word.{word_sort};
ghost use Rattle.qv_store.specs.Evaluating.{IsWordOf};
ghost use Rattle.qv_store.specs.Nodes.{tree_at};
ghost use Rattle.qv_choose_paths.specs.Sights.{IsTrial};
ghost use Rattle.qv_choose_candidates.specs.Offers.{offered, IsAim, IsReady, Decides, HasPlaceSort, Stays};
ghost use Rattle.qv_choose.specs.Trying.{IsTermAt};
ghost use Rattle.qv_choose_candidates.specs.Offers.{Finds};

use qv_choose_candidates::{Offer, Target, Trial, row_word, target_row, word_down};
use qv_store::{Id, NoMemory, Store};
use qv_words::Word;
use std::alloc::Global;

// The first of these that keeps the region true.
pub(crate) fn first_offer(
    alloc: Global,
    store: &Store,
    trial: &Trial,
    region: Id,
    point: &mut [Word],
    offers: &[Offer],
) -> Result<Option<Offer>, NoMemory>
    requires trial { IsTrial point.old store.now region trial.now }
    requires ready { All (IsReady trial.now.sight.place store.now trial.now.sight.walk)
        offers.now }
    ensures same { point.new ≡ point.old }
    ensures found { IfOk result (Finds (Stays point.old store.now region trial.now.sight.place)
        trial.now.sight.place store.now trial.now.sight.walk offers.now) }
{
    'offers: for offer in offers {
        if keeps_true(alloc, store, trial, region, point, *offer)? {
            return Ok(Some(*offer));
        }
    }
    Ok(None)
}

// Whether one does.
fn keeps_true(
    alloc: Global,
    store: &Store,
    trial: &Trial,
    region: Id,
    point: &mut [Word],
    offer: Offer,
) -> Result<bool, NoMemory>
    requires trial { IsTrial point.old store.now region trial.now }
    requires ready { IsReady trial.now.sight.place store.now trial.now.sight.walk offer }
    ensures same { point.new ≡ point.old }
    ensures good { IfOk result (Decides (Stays point.old store.now region trial.now.sight.place)
        (λ u. offered trial.now.sight.place store.now offer ≡ Some u)) }
{
    match offer {
        Offer::Truth(holds) => stays_true(store, trial, region, point, Word::truth(holds)),
        Offer::Down {
            side,
            other,
            target,
        } => keeps_true_down(alloc, store, trial, region, point, target, side, other),
    }
}

// Whether what a target gives down a side does.
fn keeps_true_down(
    alloc: Global,
    store: &Store,
    trial: &Trial,
    region: Id,
    point: &mut [Word],
    target: Target,
    side: Id,
    other: Id,
) -> Result<bool, NoMemory>
    requires trial { IsTrial point.old store.now region trial.now }
    requires aim { IsAim trial.now.sight.place store.now trial.now.sight.walk side other }
    ensures same { point.new ≡ point.old }
    ensures good { IfOk result (Decides (Stays point.old store.now region trial.now.sight.place)
        (λ u. offered trial.now.sight.place store.now (Offer.Down side other target) ≡ Some u)) }
{
    let row = target_row(alloc, target, store.sort(other))?;
    let word = trial.word(store, other);
    let aim = row_word(alloc, &row, word, word)?;
    let arrived = word_down(alloc, store, trial, side, aim)?;
    stays_true(store, trial, region, point, arrived)
}

// Whether the region is true at the point with this word for the place.
fn stays_true(
    store: &Store,
    trial: &Trial,
    region: Id,
    point: &mut [Word],
    word: Word,
) -> Result<bool, NoMemory>
    requires trial { IsTrial point.old store.now region trial.now }
    requires sort { HasPlaceSort point.old trial.now.sight.place.level (word_sort word) }
    ensures same { point.new ≡ point.old }
    ensures held { IfOk result (Decides (Stays point.old store.now region trial.now.sight.place)
        (λ u. IsWordOf [] point.old u word)) }
{
    let level = trial.sight.place.level as usize;
    let own = point[level];
    point[level] = word;
    let words = store.eval_all(&trial.sight.walk, &[], point);
    point[level] = own;
    let words = words?;
    let held = *trial.sight.walk.result_of(&words, region);
    Ok(held.value() == 1)
}

// Whether the region is true at the point with a term of the place's sort over the point's places.
pub(crate) fn holds_with(
    store: &Store,
    trial: &Trial,
    region: Id,
    point: &mut [Word],
    term: Id,
) -> Result<bool, NoMemory>
    requires trial { IsTrial point.old store.now region trial.now }
    requires term { IsTermAt point.old store.now trial.now.sight.place term }
    ensures same { point.new ≡ point.old }
    ensures held { IfOk result (Decides (Stays point.old store.now region trial.now.sight.place)
        (λ u. u ≡ tree_at store.now term)) }
{
    let word = store.eval_at(term, &[], point)?;
    stays_true(store, trial, region, point, word)
}
