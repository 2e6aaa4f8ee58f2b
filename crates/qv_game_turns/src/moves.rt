//! The two moves that add an entry.

ghost use Rattle.std.specs.Prelude.{◌≡◌, ◌<◌, ◌≤◌, ◌^◌, All, IfOk, IfSome, IsTrue, List};
ghost use Rattle.std.specs.Prelude.{ℕ, length, option_to_list};
ghost use Rattle.qv_words.specs.Tree.{Tree};
ghost use Rattle.qv_words.specs.Problem.{Problem as PlainProblem, other};
ghost use Rattle.qv_words.specs.Linked.{Block};
ghost use Rattle.qv_store.specs.Problems.{problem_in, quantifier_of, IsPosedIn};
ghost use Rattle.qv_store.specs.declared.problem.Problem.{Problem as Posed};
ghost use Rattle.qv_store.specs.Stores.{AreShared, Grows};
ghost use Rattle.qv_store.specs.Nodes.{tree_at};
ghost use Rattle.qv_entries.specs.Rows.{entries_in, is_row_of, row_of, IsRowIn};
ghost use Rattle.qv_meter.specs.Queries.{all_links, block_count, numbers_from};
ghost use Rattle.qv_meter.specs.Records.{Metering};
ghost use Rattle.qv_game_state.specs.Counts.{SameButCounts};
ghost use Rattle.qv_game_state.specs.Faults.{IsSpentWhere};
ghost use Rattle.qv_game_state.specs.Entering.{IsEntered};
ghost use Rattle.qv_game_state.specs.Playing.{IsGame};
ghost use Rattle.qv_game_state.specs.Spots.{BlockAt};
ghost use Rattle.qv_game_links.specs.Thinning.{AreThinned, IsFormula};
ghost use Rattle.qv_game_turns.specs.Moves.{IsForcedIn, IsForcedRegion, IsLater, IsOutsideRegion};
ghost use Rattle.qv_game_turns.specs.Moves.{IsNever, MayForce, MayOwn};

use qv_cnf::Lit;
use qv_entries::{Entries, Entry};
use qv_game_links::thin;
use qv_game_outside::{never, outside};
use qv_game_regions::{fix, take};
use qv_game_state::{Game, failed_runs, put_last};
use qv_meter::{Meter, PlayFault};
use qv_store::{Id, NoMemory, Problem, Quant, Store};
use qv_words::Word;
use std::alloc::{AllocError, Global};

// More entries at the next level don't let one ask again.
const MOST_ASKED: u32 = 16;

// The owner of a level's block takes terms by which the point's values lead to a later region of
// its own: that of an entry, or the last one. It wins from its own region.
pub(crate) fn own(
    game: &mut Game,
    alloc: Global,
    store: &mut Store,
    problem: &Problem,
    meter: &mut Meter,
    level: u64,
    link: Option<u64>,
    point: &[Word],
) -> Result<u64, PlayFault>
    requires { (p : PlainProblem) × (limit : ℕ)
        × MayOwn store.old problem.now p limit game.old level link point.now meter.old }
    ensures grows { Grows store.old store.new }
    ensures entered { IfOk result (λ number. (p : PlainProblem) (limit : ℕ) →
        MayOwn store.old problem.now p limit game.old level link point.now meter.old →
        (b : Block) → BlockAt p level b →
        IsEntered store.new p limit game.old game.new level b.owner meter.new) }
    ensures counts { SameButCounts meter.old meter.new }
    ensures spent { IsSpentWhere result meter.new }
{
    let span = game.spans[level as usize - 1];
    let later = put_later(alloc, store, problem, &game.entries, span.owner, link)?;
    let taken = take(alloc, store, later, span.first, point)?;
    let entry = Entry {
        level,
        winner: span.owner,
        region: taken.region,
        point: Vec::from_slice(alloc, &point[..span.first as usize])?,
        terms: taken.terms,
        links: links_to(alloc, link)?,
    };
    game.enter(alloc, store, problem, meter, entry)
}

// A later region of a player: that of an entry, or the last one.
fn put_later(
    alloc: Global,
    store: &mut Store,
    problem: &Problem,
    entries: &Entries,
    owner: Quant,
    link: Option<u64>,
) -> Result<Id, NoMemory>
    requires posed { IsPosedIn store.old problem.now }
    requires rows { All (IsRowIn store.old) entries.now }
    requires link { IfSome link (λ n. n < length entries.now) }
    ensures later { IfOk result (λ id. IsLater (problem_in store.old problem.now)
        (entries_in store.old entries.now) (quantifier_of owner) link (tree_at store.new id)) }
    ensures below { IfOk result (λ id. id < length store.new) }
    ensures grows { Grows store.old store.new }
    ensures shared { AreShared store.new }
{
    match link {
        Some(number) => {
            // What every store keeps.
            let _few = store.len();
            Ok(entries.entry(number).region)
        }
        None => put_last(alloc, store, problem, owner),
    }
}

// One link, or none.
fn links_to(alloc: Global, link: Option<u64>) -> Result<Vec<u64>, AllocError>
    ensures { IfOk result (λ links. links.items ≡ option_to_list link) }
{
    let mut links = Vec::new(alloc);
    if let Some(number) = link {
        links.push(number)?;
    }
    Ok(links)
}

// The player who doesn't own a level's block wins from a region that leaves the owner no values.
pub(crate) fn force(
    game: &mut Game,
    alloc: Global,
    store: &mut Store,
    problem: &Problem,
    meter: &mut Meter,
    level: u64,
    point: &[Word],
    core: &[Lit],
) -> Result<u64, PlayFault>
    requires { (p : PlainProblem) × (limit : ℕ)
        × MayForce store.old problem.now p limit game.old level point.now core.now meter.old }
    ensures grows { Grows store.old store.new }
    ensures entered { IfOk result (λ number. (p : PlainProblem) (limit : ℕ) →
        MayForce store.old problem.now p limit game.old level point.now core.now meter.old →
        (b : Block) → BlockAt p level b →
        IsForcedIn store.new p limit game.old game.new level (other b.owner) point.now number
        meter.new) }
    ensures counts { SameButCounts meter.old meter.new }
    ensures spent { IsSpentWhere result meter.new }
{
    let region = forced_region(game, alloc, store, level, point, core)?;
    let winner = game.queries[level as usize - 1].winner;
    let links = links_from(alloc, game, store, level, winner, region)?;
    let entry = Entry {
        level,
        winner,
        region,
        point: Vec::from_slice(alloc, point)?,
        terms: Vec::new(alloc),
        links,
    };
    game.enter(alloc, store, problem, meter, entry)
}

// A region that leaves the owner of a level's block no values: all that lies outside its regions
// there, or all there is, or else the bits of the point that a core names.
fn forced_region(
    game: &Game,
    alloc: Global,
    store: &mut Store,
    level: u64,
    point: &[Word],
    core: &[Lit],
) -> Result<Id, NoMemory>
    requires { (posed : Posed) × (p : PlainProblem) × (limit : ℕ) × (m : Metering)
        × MayForce store.old posed p limit game.now level point.now core.now m }
    ensures grows { Grows store.old store.new }
    ensures forced { IfOk result (λ region. (posed : Posed) (p : PlainProblem) (limit : ℕ)
        (m : Metering) → MayForce store.old posed p limit game.now level point.now core.now m →
        (b : Block) → BlockAt p level b → IsForcedRegion store.new p game.now.entries level
        (other b.owner) point.now region) }
{
    if let Some(region) = outside_of(game, alloc, store, level)? {
        return Ok(region);
    }
    if is_never(game, alloc, store, level)? {
        return fix_failed(game, alloc, store, level, point, &[]);
    }
    fix_failed(game, alloc, store, level, point, core)
}

// All that lies outside the regions of a level's owner there, where it is found that no values are
// left to it. This is looked for only where there is something new to it.
fn outside_of(
    game: &Game,
    alloc: Global,
    store: &mut Store,
    level: u64,
) -> Result<Option<Id>, NoMemory>
    requires { (p : PlainProblem) × (limit : ℕ) × (m : Metering)
        × IsGame store.old p limit game.now m × (1 ≤ level) × (level ≤ block_count p) }
    ensures grows { Grows store.old store.new }
    ensures none { IfOk result (λ found. IfSome found
        (IsOutsideRegion store.old store.new game.now level)) }
{
    if level < 2 {
        return Ok(None);
    }
    let index = level as usize - 1;
    let before = &game.queries[index - 1];
    if !is_due(&game.entries, level, before.winner) {
        return Ok(None);
    }
    let query = &game.queries[index];
    outside(alloc, store, &before.list, &query.list)
}

// Whether it is found that what a level's query asks for has no values, whatever the point is. This
// is looked for where the level's owner has no regions there, and there is something new to it.
fn is_never(game: &Game, alloc: Global, store: &Store, level: u64) -> Result<bool, NoMemory>
    requires { (p : PlainProblem) × (limit : ℕ) × (m : Metering)
        × IsGame store.now p limit game.now m × (1 ≤ level) × (level ≤ block_count p) }
    ensures { IfOk result (λ never. IsTrue never → IsNever store.now game.now level) }
{
    if level < 2 {
        return Ok(false);
    }
    let index = level as usize - 1;
    let before = &game.queries[index - 1];
    if !before.list.is_empty() || !is_due(&game.entries, level, before.winner) {
        return Ok(false);
    }
    let query = &game.queries[index];
    never(alloc, store, &query.list)
}

// Whether more lies in the regions that decide what is outside those of a level's owner than when
// this was last asked for: the owner has the newest entry of the level, or the other player one of
// its first few at the next level, or nothing was asked for yet.
fn is_due(entries: &Entries, level: u64, owner: Quant) -> bool {
    let mut due = true;
    let mut left = MOST_ASKED;
    for number in 0..entries.len() {
        let entry = entries.entry(number);
        if entry.level == level {
            due = entry.winner == owner;
        } else if entry.level.wrapping_sub(1) == level && entry.winner != owner && left > 0 {
            left -= 1;
            due = true;
        }
    }
    due
}

// The region that fixes the bits of the point that a core names.
fn fix_failed(
    game: &Game,
    alloc: Global,
    store: &mut Store,
    level: u64,
    point: &[Word],
    core: &[Lit],
) -> Result<Id, NoMemory>
    requires { (posed : Posed) × (p : PlainProblem) × (limit : ℕ) × (m : Metering)
        × MayForce store.old posed p limit game.now level point.now core.now m }
    ensures grows { Grows store.old store.new }
    ensures forced { IfOk result (λ region. (posed : Posed) (p : PlainProblem) (limit : ℕ)
        (m : Metering) → MayForce store.old posed p limit game.now level point.now core.now m →
        (b : Block) → BlockAt p level b → IsForcedRegion store.new p game.now.entries level
        (other b.owner) point.now region) }
{
    let index = level as usize - 1;
    let end = game.spans[index].end as usize;
    let lane = &game.queries[index].lane;
    let runs = failed_runs(alloc, lane, store, &game.places[..end], point, core)?;
    fix(alloc, store, point, &runs)
}

// What a forced entry of a level is linked to: at another level than the last those entries of its
// winner at the next one that are enough for its region, where links make lines of a tree.
fn links_from(
    alloc: Global,
    game: &Game,
    store: &Store,
    level: u64,
    winner: Quant,
    region: Id,
) -> Result<Vec<u64>, AllocError>
    requires level { level < 2 ^ 63 }
    requires region { IsFormula store.now region }
    requires rows { All (λ row. IsFormula store.now row.region) game.now.entries }
    ensures { IfOk result (λ links. (p : PlainProblem) →
        block_count p ≡ length game.now.spans.items → AreThinned store.now region
        game.now.entries (all_links p (entries_in store.now game.now.entries)
        (quantifier_of winner) level) links.items) }
{
    if level == game.spans.len() as u64 {
        return Ok(Vec::new(alloc));
    }
    let all = numbers_of(alloc, &game.entries, level + 1, winner)?;
    match winner {
        Quant::Exists => Ok(all),
        Quant::Forall => thin(alloc, store, region, &game.entries, all),
    }
}

// The numbers of the entries of a level and a winner.
fn numbers_of(
    alloc: Global,
    entries: &Entries,
    level: u64,
    winner: Quant,
) -> Result<Vec<u64>, AllocError>
    ensures { IfOk result (λ numbers. (trees : List Tree) → numbers.items
        ≡ numbers_from 0 level (quantifier_of winner) (entries_in trees entries.now)) }
{
    let mut numbers = Vec::new(alloc);
    'entries: for number in 0..entries.len() {
        if is_of(entries.entry(number), level, winner) {
            numbers.push(number)?;
        }
    }
    Ok(numbers)
}

// Whether an entry is of this level and winner.
fn is_of(entry: &Entry, level: u64, winner: Quant) -> bool
    ensures { result ≡ is_row_of level (quantifier_of winner) (row_of entry.now) }
{
    entry.level == level && entry.winner == winner
}
