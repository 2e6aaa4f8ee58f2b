//! The blocks of prenex forms.

ghost use Rattle.std.specs.Prelude.{◌≡◌, ◌<◌, ◌≤◌, ◌∷◌, ◌++◌, [], List, All, IfOk, OnOk, length};
ghost use Rattle.std.specs.Prelude.{map, reverse};
ghost use Rattle.qv_words.specs.Prenex.{form_of, joined_blocks};
ghost use Rattle.qv_words.specs.Problem.{conjunction};
ghost use Rattle.qv_store.specs.Nodes.{tree_at};
ghost use Rattle.qv_store.specs.Stores.{Grows};
ghost use Rattle.qv_prenex_laws.specs.RuleLaws.{blocks_under, quantifier_blocks};
ghost use Rattle.qv_prenex_matrix.specs.Rules.{parts_over};
ghost use Rattle.qv_prenex.specs.Blocks.{behind, sorts_in, tasks_in, first_task, at_block};
ghost use Rattle.qv_prenex.specs.Blocks.{blocks_after, tasks_work, AreTasks};

use qv_prenex_matrix::{Part, Rule, SplitStore, push_parts, rule_of, starts_empty, waiting};
use qv_store::{Id, NoMemory};
use qv_words::Sort;
use std::alloc::Global;

// A part that waits, and the block in which the first block of its form goes.
#[derive(Clone, Copy)]
struct Task {
    part: Part,
    block: usize,
}

// The sorts of the variables of each block of the form of the formulas' conjunction. Each part is
// looked at twice at most; a split takes time proportional to the distinct quantified terms above
// quantifiers.
pub(crate) fn blocks_of(
    alloc: Global,
    store: &mut SplitStore,
    formulas: &[Id],
) -> Result<Vec<Vec<Sort>>, NoMemory>
    requires { All (λ id. id < length store.old) formulas.now }
    ensures blocks { IfOk result (λ blocks. sorts_in blocks.items
        ≡ (form_of (conjunction (map (tree_at store.old) formulas.now))).blocks) }
    ensures grows { Grows store.old store.new }
{
    let mut blocks = Vec::new(alloc);
    let mut todo = tasks_of(alloc, formulas)?;
    'todo: while let Some(task) = todo.pop() {
        list_next(alloc, store, &mut todo, &mut blocks, task)?;
    }
    Ok(blocks)
}

// The formulas, to be gone through in order from the first block on.
fn tasks_of(alloc: Global, formulas: &[Id]) -> Result<Vec<Task>, NoMemory>
    ensures { IfOk result (λ todo. reverse todo.items ≡ map first_task formulas.now) }
{
    let parts = waiting(alloc, formulas)?;
    let mut todo = Vec::with_capacity(alloc, parts.len())?;
    push_at(&mut todo, 0, &parts)?;
    Ok(todo)
}

// The parts that a rule names under this sign, to be gone through next, in order, from this block
// on.
fn push_tasks(
    alloc: Global,
    todo: &mut Vec<Task>,
    block: usize,
    plus: bool,
    rule: &Rule,
) -> Result<(), NoMemory>
    ensures { OnOk result (reverse todo.new.items
        ≡ map (at_block block) (parts_over plus rule.now) ++ reverse todo.old.items) }
{
    let mut parts = Vec::new(alloc);
    push_parts(&mut parts, plus, rule)?;
    push_at(todo, block, &parts)
}

// Puts parts behind the tasks, each from this block on.
fn push_at(todo: &mut Vec<Task>, block: usize, parts: &[Part]) -> Result<(), NoMemory>
    ensures { OnOk result (todo.new.items
        ≡ todo.old.items ++ map (at_block block) parts.now) }
{
    'parts: for part in parts {
        todo.push(Task { part: *part, block })?;
    }
    Ok(())
}

fn task_of(plus: bool, term: Id, block: usize) -> Task
    ensures part { result.part ≡ record { plus = plus; term = term } }
    ensures block { result.block ≡ block }
{
    Task {
        part: Part { plus, term },
        block,
    }
}

// The next part makes way for what it is made of. If a quantifier stands at its top, its variable
// goes to its block.
fn list_next(
    alloc: Global,
    store: &mut SplitStore,
    todo: &mut Vec<Task>,
    blocks: &mut Vec<Vec<Sort>>,
    task: Task,
) -> Result<(), NoMemory>
    requires { AreTasks (length store.old) (length blocks.old.items)
        (task ∷ reverse todo.old.items) }
    ensures tasks { OnOk result (AreTasks (length store.new) (length blocks.new.items)
        (reverse todo.new.items)) }
    ensures end { OnOk result (
        blocks_after (sorts_in blocks.new.items) (tasks_in store.new (reverse todo.new.items))
        ≡ blocks_after (sorts_in blocks.old.items)
        (tasks_in store.old (task ∷ reverse todo.old.items))) }
    ensures fewer { OnOk result (tasks_work (tasks_in store.new (reverse todo.new.items))
        < tasks_work (tasks_in store.old (task ∷ reverse todo.old.items))) }
    ensures grows { Grows store.old store.new }
{
    let Task { part, block } = task;
    let plus = part.plus;
    let rule = rule_of(alloc, store, part)?;
    if let Rule::Bound {
        existential,
        sort,
        body,
        ..
    } = &rule
    {
        let term = *body;
        let under = Part { plus, term };
        let block = bind(alloc, store, blocks, *existential, *sort, under, block)?;
        todo.push(task_of(plus, term, block))?;
        return Ok(());
    }
    push_tasks(alloc, todo, block, plus, &rule)?;
    Ok(())
}

// Puts the variable of a quantifier into its block, where the form's first block is this one. Gives
// the block in which the first block of the body's form goes.
fn bind(
    alloc: Global,
    store: &mut SplitStore,
    blocks: &mut Vec<Vec<Sort>>,
    existential: bool,
    sort: Sort,
    body: Part,
    block: usize,
) -> Result<usize, NoMemory>
    requires body { body.term < length store.old }
    requires block { block ≤ length blocks.old.items }
    ensures blocks { IfOk result (λ next. (inner : List (List Sort)) →
        inner ≡ blocks_under body.plus (tree_at store.old body.term) →
        joined_blocks (sorts_in blocks.new.items) (behind next inner)
        ≡ joined_blocks (sorts_in blocks.old.items)
        (behind block (quantifier_blocks existential sort inner))) }
    ensures within { IfOk result (λ next. next ≤ length blocks.new.items) }
    ensures more { length blocks.old.items ≤ length blocks.new.items }
    ensures grows { Grows store.old store.new }
{
    if existential {
        put_sort(alloc, blocks, block, sort)?;
        return Ok(block);
    }
    let empty = starts_empty(alloc, store, body)?;
    put_sort(alloc, blocks, block + 1, sort)?;
    Ok(if empty { block } else { block + 2 })
}

// Puts a variable behind the others of a block.
fn put_sort(
    alloc: Global,
    blocks: &mut Vec<Vec<Sort>>,
    block: usize,
    sort: Sort,
) -> Result<(), NoMemory>
    ensures blocks { OnOk result (sorts_in blocks.new.items
        ≡ joined_blocks (sorts_in blocks.old.items) (behind block ((sort ∷ []) ∷ []))) }
    ensures within { OnOk result (block < length blocks.new.items) }
    ensures more { length blocks.old.items ≤ length blocks.new.items }
{
    'room: while blocks.len() <= block {
        blocks.push(Vec::new(alloc))?;
    }
    blocks[block].push(sort)?;
    Ok(())
}
