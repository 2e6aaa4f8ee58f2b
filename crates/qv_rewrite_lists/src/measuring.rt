//! How hard a list of formulas looks.

ghost use Rattle.std.specs.Prelude.{◌<◌, ◌≤◌, All, OnOk, length};
ghost use Rattle.qv_store.specs.Walks.{IsWalk};

use qv_store::{Id, NoMemory, Node, Store, Walk};
use qv_words::Op;
use std::alloc::Global;

// Formulas with more distinct terms go through the ten rules alone.
const MOST_TERMS: usize = 200_000;

// Operators of one kind.
#[derive(Clone, Copy)]
enum Kind {
    // Those that make sums and products.
    Sum,
    // Those that make chains of exclusive or.
    Xor,
}

impl Kind {
    // Whether an operator is of this kind.
    fn has(self, op: Op) -> bool {
        match self {
            Kind::Sum => matches!(op, Op::BvAdd | Op::BvSub | Op::BvNeg | Op::BvMul),
            Kind::Xor => matches!(op, Op::Xor | Op::BvXor | Op::BvXnor),
        }
    }
}

// What the distinct terms of a list of formulas are.
#[derive(Clone, Copy)]
pub(crate) struct Measure {
    // A formula of it is `true` or `false`.
    pub(crate) known: bool,
    // It has an addition, a subtraction, an opposite or a multiplication.
    pub(crate) sums: bool,
    // It has an exclusive or, or an exclusive nor.
    pub(crate) xors: bool,
    // How many divisions it has, and multiplications of two terms that are no literals.
    pub(crate) products: usize,
    // How many terms it has.
    pub(crate) terms: usize,
}

impl Measure {
    // Whether passes are tried behind the rules.
    pub(crate) fn is_small(&self) -> bool {
        self.terms <= MOST_TERMS
    }

    // Whether a list looks easier than another.
    pub(crate) fn is_better(&self, other: &Measure) -> bool {
        if self.known && !other.known {
            return true;
        }
        if self.products != other.products {
            return self.products < other.products;
        }
        self.terms < other.terms
    }
}

// What the distinct terms of a list are.
pub(crate) fn measure_list(alloc: Global, store: &Store, list: &[Id]) -> Result<Measure, NoMemory>
    requires { All (λ id. id < length store.now) list.now }
{
    let mut walk = Walk::new(alloc);
    visit_all(&mut walk, store, list)?;
    Ok(Measure {
        known: has_literal(store, list),
        sums: has_kind(store, &walk, Kind::Sum),
        xors: has_kind(store, &walk, Kind::Xor),
        products: count_products(store, &walk),
        terms: walk.len(),
    })
}

// The terms of formulas.
fn visit_all(walk: &mut Walk, store: &Store, list: &[Id]) -> Result<(), NoMemory>
    requires ids { All (λ id. id < length store.now) list.now }
    requires walk { IsWalk store.now walk.old }
    ensures walk { IsWalk store.now walk.new }
{
    'formulas: for id in list {
        walk.visit(store, *id)?;
    }
    Ok(())
}

// Whether one of the formulas is a literal.
fn has_literal(store: &Store, list: &[Id]) -> bool
    requires { All (λ id. id < length store.now) list.now }
{
    'formulas: for id in list {
        if is_literal(store, *id) {
            return true;
        }
    }
    false
}

// Whether one of the terms has an operator of a kind.
fn has_kind(store: &Store, walk: &Walk, kind: Kind) -> bool
    requires { IsWalk store.now walk.now }
{
    'terms: for id in walk.ids() {
        if let Node::App { op, .. } = store.node(*id)
            && kind.has(*op)
        {
            return true;
        }
    }
    false
}

// How many divisions the terms are, and multiplications of two terms that are no literals.
fn count_products(store: &Store, walk: &Walk) -> usize
    requires { IsWalk store.now walk.now }
    ensures { result ≤ length walk.now }
{
    let mut count = 0;
    'terms: for id in walk.ids() {
        if is_product(store, *id) {
            count += 1;
        }
    }
    count
}

// Whether a term is such a multiplication, or a division or a remainder: these have all their gates
// whatever their arguments are.
fn is_product(store: &Store, id: Id) -> bool
    requires { id < length store.now }
{
    match store.node(id) {
        Node::App {
            op: Op::BvMul,
            kids,
        } => !has_literal(store, kids.as_slice()),
        Node::App { op, .. } => is_division(*op),
        _ => false,
    }
}

fn is_division(op: Op) -> bool {
    matches!(
        op,
        Op::BvUdiv | Op::BvUrem | Op::BvSdiv | Op::BvSrem | Op::BvSmod
    )
}

// Whether a term is a literal.
fn is_literal(store: &Store, id: Id) -> bool
    requires { id < length store.now }
{
    matches!(store.node(id), Node::Lit { .. })
}
