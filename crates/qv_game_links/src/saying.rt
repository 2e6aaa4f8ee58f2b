//! What regions say, part by part.

ghost use Rattle.std.specs.Prelude.{◌≡◌, ◌<◌, ◌∷◌, [], IfOk, IfSome, IsTrue, OnOk};
ghost use Rattle.std.specs.Prelude.{length, option_to_list};
ghost use Rattle.qv_words.specs.declared.sort.Sort.{Sort};
ghost use Rattle.qv_words.specs.declared.sort.Sort.TheVariants.{Bool as BoolSort};
ghost use Rattle.qv_words.specs.Tree.{Literal};
ghost use Rattle.qv_words.specs.Skolem.{IsTermOf};
ghost use Rattle.qv_store.specs.Nodes.{tree_at};
ghost use Rattle.qv_game_links.specs.Saying.{AreSaid, IsConjunction, IsEquation, IsSaidBehind};

use qv_store::{Id, Node, Store};
use qv_words::Op;
use std::alloc::{AllocError, Global};

/// That a term has a value.
#[derive(Clone, Copy)]
pub struct Statement {
    pub id: Id,
    pub value: u128,
}

// What the parts of a formula say: all of it is so where the formula is true, and there alone.
pub(crate) fn statements(
    alloc: Global,
    store: &Store,
    formula: Id,
) -> Result<Vec<Statement>, AllocError>
    requires id { formula < length store.now }
    requires formula { IsTermOf (tree_at store.now formula) BoolSort }
    ensures { IfOk result (λ said. AreSaid store.now formula said.items) }
{
    let mut said = Vec::new(alloc);
    let mut left = formula;
    'parts: while let Some((front, part)) = parts_of(store, left) {
        say(store, part, &mut said)?;
        left = front;
    }
    say(store, left, &mut said)?;
    Ok(said)
}

// What one part says, behind what the others say.
fn say(store: &Store, part: Id, said: &mut Vec<Statement>) -> Result<(), AllocError>
    requires id { part < length store.now }
    ensures { OnOk result (IsSaidBehind store.now part said.old.items said.new.items) }
{
    if let Some(statement) = stated(store, part) {
        said.push(statement)?;
    }
    Ok(())
}

// What a part says: that a term has the value of a literal, or that it is true itself. The literal
// that is true says nothing.
fn stated(store: &Store, part: Id) -> Option<Statement>
    requires id { part < length store.now }
    ensures { AreSaid store.now part (option_to_list result) }
{
    if is_one(store, part) {
        return None;
    }
    match sides_of(store, part) {
        Some((id, value)) => Some(Statement { id, value }),
        None => Some(Statement { id: part, value: 1 }),
    }
}

// Whether a term is a literal of the value 1.
fn is_one(store: &Store, id: Id) -> bool
    requires id { id < length store.now }
    ensures { IsTrue result → (s : Sort) × (tree_at store.now id ≡ Literal s 1) }
{
    value_of(store, id) == Some(1)
}

// The value of a literal.
fn value_of(store: &Store, id: Id) -> Option<u128>
    requires id { id < length store.now }
    ensures { IfSome result (λ value. (s : Sort) × (tree_at store.now id ≡ Literal s value)) }
{
    match store.node(id) {
        Node::Lit { word } => Some(word.value()),
        _ => None,
    }
}

// The two parts of a conjunction.
fn parts_of(store: &Store, id: Id) -> Option<(Id, Id)>
    requires id { id < length store.now }
    ensures { IfSome result (λ parts. IsConjunction store.now id parts.0 parts.1) }
{
    match store.node(id) {
        Node::App { op, kids } => parts_among(*op, kids.as_slice()),
        _ => None,
    }
}

// The two arguments of `and`.
fn parts_among(op: Op, kids: &[Id]) -> Option<(Id, Id)>
    ensures { IfSome result (λ parts. (op ≡ Op.And) × (kids.now ≡ parts.0 ∷ parts.1 ∷ [])) }
{
    match op {
        Op::And => two_of(kids),
        _ => None,
    }
}

// A term and the value of the literal that it equals.
fn sides_of(store: &Store, id: Id) -> Option<(Id, u128)>
    requires id { id < length store.now }
    ensures { IfSome result (λ sides. IsEquation store.now id sides.0 sides.1) }
{
    match store.node(id) {
        Node::App { op, kids } => {
            let (term, literal) = equal_among(*op, kids.as_slice())?;
            let value = value_of(store, literal)?;
            // What a sort of the store is.
            let _sort = store.sort(term);
            Some((term, value))
        }
        _ => None,
    }
}

// The two arguments of `=`.
fn equal_among(op: Op, kids: &[Id]) -> Option<(Id, Id)>
    ensures { IfSome result (λ sides. (op ≡ Op.Equal) × (kids.now ≡ sides.0 ∷ sides.1 ∷ [])) }
{
    match op {
        Op::Equal => two_of(kids),
        _ => None,
    }
}

// The elements of a list of two.
fn two_of(ids: &[Id]) -> Option<(Id, Id)>
    ensures { IfSome result (λ two. ids.now ≡ two.0 ∷ two.1 ∷ []) }
{
    match ids {
        [first, second] => Some((*first, *second)),
        _ => None,
    }
}
