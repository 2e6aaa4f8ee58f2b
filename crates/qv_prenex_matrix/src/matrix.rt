//! The matrix of a prenex form, with its variables at their places.

ghost use Rattle.std.specs.Prelude.{◌≡◌, ◌+◌, ◌<◌, [], ◌∷◌, suc, true, false, Some, ℕ, IfOk, OnOk};
ghost use Rattle.std.specs.Prelude.{length, reverse, cond, nat_eq, if◌then◌else◌};
ghost use Rattle.std.specs.List.{AllByRecursion};
ghost use Rattle.std.specs.HashMap.{get};
ghost use Rattle.qv_words.specs.declared.sort.Sort.TheVariants.{Bool as BoolSort};
ghost use Rattle.qv_words.specs.declared.op.Op.TheVariants.{And, Or};
ghost use Rattle.qv_words.specs.Sort.{IsLawful};
ghost use Rattle.qv_words.specs.Tree.{tree_sort};
ghost use Rattle.qv_words.specs.Sorted.{no_levels};
ghost use Rattle.qv_words.specs.Replacement.{replaced};
ghost use Rattle.qv_words.specs.Prenex.{is_quantified, under_sign};
ghost use Rattle.qv_words.specs.Problem.{with_places};
ghost use Rattle.qv_store.specs.Nodes.{tree_at};
ghost use Rattle.qv_store.specs.Stores.{StandsAt, AreShared, Grows};
ghost use Rattle.qv_prenex_laws.specs.FormLaws.{lengths_under};
ghost use Rattle.qv_prenex_laws.specs.MatrixLaws.{matrix_under, starts_empty};
ghost use Rattle.qv_prenex_matrix.specs.declared.matrix.Task.TheVariants.{Build, Join};
ghost use Rattle.qv_prenex_splits.specs.Naming.{place_of, outer_of};
ghost use Rattle.qv_prenex_splits.specs.Memos.{IsForgotten};
ghost use Rattle.qv_prenex_matrix.specs.NextLevels.{next_of};
ghost use Rattle.qv_prenex_matrix.specs.Matrix.{cursor_at, IsFormula, IsJunction, IsResult};
ghost use Rattle.qv_prenex_matrix.specs.Matrix.{IsJoined, IsBound, leaving, AreNamed, IsRunning};
ghost use Rattle.qv_prenex_matrix.specs.Matrix.{IsNext};

use crate::levels::Levels;
use crate::openings::starts_empty;
use crate::rules::{Part, Rule, put_negation, rule_of};
use qv_prenex_splits::{Memo, Names, SplitStore, rename};
use qv_store::{Id, NoMemory, Node};
use qv_words::{Op, Sort};
use smallvec::SmallVec;
use std::alloc::{AllocError, Global};

// What waits: the matrix of a part is built, where its form's first block is this one; the last two
// matrices are joined; or behind a quantifier a term stands for its level again, or nothing does.
#[derive(Clone, Copy)]
enum Task {
    Build(Part, usize),
    Join(Op),
    Back(u64, Id),
    Free(u64),
}

// What waits and what is built so far, the next and the last one at the end.
#[derive(Drop)]
struct Machine {
    todo: Vec<Task>,
    results: Vec<Id>,
    names: Names,
    levels: Levels,
    // What was made of terms without quantifiers, where it is right under the present names.
    made: Memo,
}

/// The matrix of a formula's form, where the constants have these places and the variables of each
/// block these levels.
pub fn matrix_of(
    alloc: Global,
    store: &mut SplitStore,
    names: Names,
    levels: Levels,
    formula: Id,
) -> Result<Id, NoMemory>
    requires formula { formula < length store.old }
    requires bool { tree_sort (tree_at store.old formula) ≡ Some BoolSort }
    requires closed { names.outer.entries ≡ [] }
    ensures id { IfOk result (λ id. StandsAt store.new id
        (matrix_under (place_of names.constants.keys) true (tree_at store.old formula)
        (cursor_at no_levels (next_of levels.next.items levels.total) 0))) }
    ensures grows { Grows store.old store.new }
{
    let _few = store.len();
    let mut machine = Machine {
        todo: Vec::new(alloc),
        results: Vec::new(alloc),
        names,
        levels,
        made: Memo::new(alloc),
    };
    machine.todo.push(task_of(true, formula, 0))?;
    'todo: while let Some(task) = machine.todo.pop() {
        run(alloc, store, &mut machine, task)?;
    }
    match machine.results.pop() {
        Some(id) => Ok(id),
        None => Err(AllocError),
    }
}

fn task_of(plus: bool, term: Id, block: usize) -> Task
    ensures { result ≡ Build (record { plus = plus; term = term }) block }
{
    Task::Build(Part { plus, term }, block)
}

// Does what waits next.
fn run(
    alloc: Global,
    store: &mut SplitStore,
    machine: &mut Machine,
    task: Task,
) -> Result<(), NoMemory>
    requires { IsRunning store.old (task ∷ reverse machine.old.todo.items)
        (reverse machine.old.results.items) machine.old.names machine.old.made }
    ensures next { OnOk result (IsNext store.old store.new
        (task ∷ reverse machine.old.todo.items) (reverse machine.new.todo.items)
        (reverse machine.old.results.items) (reverse machine.new.results.items)
        machine.old.names machine.new.names machine.new.made
        machine.old.levels machine.new.levels) }
    ensures grows { Grows store.old store.new }
{
    match task {
        Task::Build(part, block) => build(alloc, store, machine, part, block),
        Task::Join(op) => join(alloc, store, machine, op),
        Task::Back(level, id) => unbind(machine, level, Some(id)),
        Task::Free(level) => unbind(machine, level, None),
    }
}

// Builds the matrix of a part, or names what it is built of.
fn build(
    alloc: Global,
    store: &mut SplitStore,
    machine: &mut Machine,
    part: Part,
    block: usize,
) -> Result<(), NoMemory>
    requires { IsRunning store.old (Build part block ∷ reverse machine.old.todo.items)
        (reverse machine.old.results.items) machine.old.names machine.old.made }
    ensures next { OnOk result (IsNext store.old store.new
        (Build part block ∷ reverse machine.old.todo.items) (reverse machine.new.todo.items)
        (reverse machine.old.results.items) (reverse machine.new.results.items)
        machine.old.names machine.new.names machine.new.made
        machine.old.levels machine.new.levels) }
    ensures grows { Grows store.old store.new }
{
    let Part { plus, term } = part;
    match rule_of(alloc, store, Part { plus, term })? {
        Rule::Plain => {
            let id = plain(alloc, store, &machine.names, &mut machine.made, plus, term)?;
            machine.results.push(id)?;
        }
        Rule::Turned(a) => machine.todo.push(task_of(!plus, a, block))?,
        Rule::Joined(op, a, b) => push_joined(
            &mut machine.todo,
            op,
            task_of(plus, a, block),
            task_of(plus, b, block),
        )?,
        Rule::Crossed(a, b, c, d) => push_crossed(&mut machine.todo, a, b, c, d, block)?,
        Rule::Bound {
            existential,
            level,
            sort,
            body,
        } => bind(
            alloc,
            store,
            machine,
            Quantifier {
                plus,
                existential,
                level,
                sort,
                body,
            },
            block,
        )?,
    }
    Ok(())
}

// A term without quantifiers under its sign, with places for its leaves.
fn plain(
    alloc: Global,
    store: &mut SplitStore,
    names: &Names,
    made: &mut Memo,
    plus: bool,
    term: Id,
) -> Result<Id, NoMemory>
    requires term { term < length store.old }
    requires free { is_quantified (tree_at store.old term) ≡ false }
    requires formula { IsFormula (outer_of store.old names.now.outer) (tree_at store.old term) }
    requires named { AreNamed store.old names.now made.old }
    ensures id { IfOk result (λ id. StandsAt store.new id (under_sign plus
        (with_places (place_of names.now.constants.keys)
        (replaced (outer_of store.old names.now.outer) (tree_at store.old term))))) }
    ensures bool { IfOk result (λ id. tree_sort (tree_at store.new id) ≡ Some BoolSort) }
    ensures named { OnOk result (AreNamed store.new names.now made.new) }
    ensures grows { Grows store.old store.new }
{
    let id = rename(alloc, store, names, made, term)?;
    if plus {
        Ok(id)
    } else {
        put_negation(alloc, store, id)
    }
}

// Two tasks come first, and then their matrices are joined.
fn push_joined(todo: &mut Vec<Task>, op: Op, a: Task, b: Task) -> Result<(), NoMemory>
    ensures { OnOk result (reverse todo.new.items ≡ a ∷ b ∷ Join op ∷ reverse todo.old.items) }
{
    todo.push(Task::Join(op))?;
    todo.push(b)?;
    todo.push(a)?;
    Ok(())
}

// Two pairs of parts come first, each joined by `and`, and then these are joined by `or`.
fn push_crossed(
    todo: &mut Vec<Task>,
    a: Part,
    b: Part,
    c: Part,
    d: Part,
    block: usize,
) -> Result<(), NoMemory>
    ensures { OnOk result (reverse todo.new.items
        ≡ Build a block ∷ Build b block ∷ Join And ∷ Build c block ∷ Build d block ∷ Join And
        ∷ Join Or ∷ reverse todo.old.items) }
{
    todo.push(Task::Join(Op::Or))?;
    push_joined(todo, Op::And, Task::Build(c, block), Task::Build(d, block))?;
    push_joined(todo, Op::And, Task::Build(a, block), Task::Build(b, block))
}

// A quantifier of a form, which came from one that stands under a sign.
#[derive(Clone, Copy)]
struct Quantifier {
    plus: bool,
    existential: bool,
    level: u64,
    sort: Sort,
    body: Id,
}

// The body of a quantifier comes first, in which its variable has the next level of its block.
fn bind(
    alloc: Global,
    store: &mut SplitStore,
    machine: &mut Machine,
    quantifier: Quantifier,
    block: usize,
) -> Result<(), NoMemory>
    requires named { AreNamed store.old machine.old.names machine.old.made }
    requires body { quantifier.body < length store.old }
    requires sort { IsLawful quantifier.sort }
    ensures bound { OnOk result (IsBound store.old store.new quantifier block
        (reverse machine.old.todo.items) (reverse machine.new.todo.items)
        machine.old.names machine.new.names machine.old.levels machine.new.levels) }
    ensures results { machine.new.results.items ≡ machine.old.results.items }
    ensures made { OnOk result (
        IsForgotten machine.old.made machine.new.made quantifier.level) }
    ensures grows { Grows store.old store.new }
    ensures shared { OnOk result (AreShared store.new) }
{
    let Quantifier {
        plus,
        existential,
        level,
        sort,
        body,
    } = quantifier;
    let (own, inner) = blocks_of(alloc, store, plus, existential, body, block)?;
    let next = machine.levels.take(own)?;
    let variable = store.put(Node::Var { level: next, sort })?;
    let before = machine.names.outer.insert(level, variable)?;
    machine.made.forget(level)?;
    machine.todo.push(leaving(level, before))?;
    machine.todo.push(task_of(plus, body, inner))?;
    Ok(())
}

// What waits behind a quantifier, where this stood for its level.
fn leaving(level: u64, before: Option<Id>) -> Task
    ensures { result ≡ leaving level before }
{
    match before {
        Some(id) => Task::Back(level, id),
        None => Task::Free(level),
    }
}

// The block of a quantifier's variable, and that in which the first block of its body's form goes.
fn blocks_of(
    alloc: Global,
    store: &mut SplitStore,
    plus: bool,
    existential: bool,
    body: Id,
    block: usize,
) -> Result<(usize, usize), NoMemory>
    requires { body < length store.old }
    ensures own { IfOk result (λ found. found.0
        ≡ (if existential then block else suc block)) }
    ensures inner { IfOk result (λ found. found.1 ≡ (if existential then block
        else (if starts_empty (lengths_under plus (tree_at store.old body)) then block
        else block + 2))) }
    ensures grows { Grows store.old store.new }
{
    if existential {
        return Ok((block, block));
    }
    let own = block.checked_add(1).ok_or(AllocError)?;
    if starts_empty(alloc, store, Part { plus, term: body })? {
        return Ok((own, block));
    }
    let inner = block.checked_add(2).ok_or(AllocError)?;
    Ok((own, inner))
}

// The last two matrices are joined.
fn join(
    alloc: Global,
    store: &mut SplitStore,
    machine: &mut Machine,
    op: Op,
) -> Result<(), NoMemory>
    requires { IsRunning store.old (Join op ∷ reverse machine.old.todo.items)
        (reverse machine.old.results.items) machine.old.names machine.old.made }
    ensures next { OnOk result (IsNext store.old store.new
        (Join op ∷ reverse machine.old.todo.items) (reverse machine.new.todo.items)
        (reverse machine.old.results.items) (reverse machine.new.results.items)
        machine.old.names machine.new.names machine.new.made
        machine.old.levels machine.new.levels) }
    ensures grows { Grows store.old store.new }
{
    let joined = join_last(alloc, store, &mut machine.results, op)?;
    machine.results.push(joined)?;
    Ok(())
}

// The last two matrices, which are taken away, joined.
fn join_last(
    alloc: Global,
    store: &mut SplitStore,
    results: &mut Vec<Id>,
    op: Op,
) -> Result<Id, NoMemory>
    requires shared { AreShared store.old }
    requires junction { IsJunction op }
    requires right { AllByRecursion (IsResult store.old) (reverse results.old.items) }
    ensures joined { IfOk result (λ id. IsJoined store.old store.new op
        (reverse results.old.items) (reverse results.new.items) id) }
    ensures shared { OnOk result (AreShared store.new) }
    ensures grows { Grows store.old store.new }
{
    let b = results.pop().ok_or(AllocError)?;
    let a = results.pop().ok_or(AllocError)?;
    let kids = SmallVec::from_slice(alloc, &[a, b])?;
    store.put(Node::App { op, kids })
}

// What stood for a level stands for it again.
fn unbind(machine: &mut Machine, level: u64, before: Option<Id>) -> Result<(), NoMemory>
    ensures outer { OnOk result ((q : ℕ) → get nat_eq machine.new.names.outer q
        ≡ cond (nat_eq level q) before (get nat_eq machine.old.names.outer q)) }
    ensures constants { machine.new.names.constants.keys ≡ machine.old.names.constants.keys }
    ensures todo { machine.new.todo.items ≡ machine.old.todo.items }
    ensures results { machine.new.results.items ≡ machine.old.results.items }
    ensures next { machine.new.levels.next.items ≡ machine.old.levels.next.items }
    ensures total { machine.new.levels.total ≡ machine.old.levels.total }
    ensures made { OnOk result (IsForgotten machine.old.made machine.new.made level) }
{
    match before {
        Some(id) => {
            machine.names.outer.insert(level, id)?;
        }
        None => {
            machine.names.outer.remove(&level);
        }
    }
    machine.made.forget(level)?;
    Ok(())
}
