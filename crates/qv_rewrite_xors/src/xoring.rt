//! Each term of a walk as a chain, and the term that the last one becomes.

ghost use Rattle.std.specs.Prelude.{◌≡◌, ◌<◌, ◌==◌, if◌then◌else◌, Some, None, All, IfOk, IfSome};
ghost use Rattle.std.specs.Prelude.{OnOk, length, option_map, nat_le, fold};
ghost use Rattle.std.specs.List.{AllZip};
ghost use Rattle.qv_words.specs.Tree.{Apply};
ghost use Rattle.qv_rewrite_passes.specs.Xors.{linked, united, number_of, first_bits, terms_of};
ghost use Rattle.qv_rewrite_passes.specs.Xors.{chains, xored};
ghost use Rattle.qv_store.specs.Nodes.{tree_at, trees_at};
ghost use Rattle.qv_store.specs.Stores.{AreShared, Grows, StandsAt};
ghost use Rattle.qv_store.specs.Walks.{IsWalk, IsEarlier};
ghost use Rattle.qv_rewrite_xors.specs.Held.{chain_at, AreBelow, IsChainOf, AreChains};
ghost use Rattle.qv_rewrite_xors.specs.Held.{short_chain, IsApplication, IsNext};

use crate::building::chain_term;
use crate::chained::{Chained, alone, flipped, link, number};
use qv_rewrite_sums::ones;
use qv_store::{Id, NoMemory, Node, Store, Walk};
use qv_words::Op;
use smallvec::SmallVec;
use std::alloc::Global;

// How many terms a chain has at most.
const MOST: usize = 64;

/// The term of a term's chain: each application below it, from the leaves up, becomes a chain of
/// exclusive or, or stays with the terms of its arguments' chains. In time nearly proportional to
/// the number of distinct terms below. Also where memory runs out the store keeps what was put.
pub fn xor(alloc: Global, store: &mut Store, id: Id) -> Result<Id, NoMemory>
    requires id { id < length store.old }
    ensures id { IfOk result (λ made. StandsAt store.new made (xored (tree_at store.old id))) }
    ensures grows { Grows store.old store.new }
{
    let mut walk = Walk::new(alloc);
    walk.visit(store, id)?;
    let chains = chains_of(alloc, store, &walk)?;
    let chain = chain_of(store, &walk, &chains, id);
    term_of(alloc, store, id, chain)
}

// The chains of a walk's terms, in their order.
fn chains_of(alloc: Global, store: &mut Store, walk: &Walk) -> Result<Vec<Chained>, NoMemory>
    requires walk { IsWalk store.old walk.now }
    ensures chains { IfOk result (λ chains.
        AreChains store.new (tree_at store.old) walk.now chains.items) }
    ensures many { IfOk result (λ chains. length chains.items ≡ length walk.now) }
    ensures grows { Grows store.old store.new }
{
    let mut chains = Vec::new(alloc);
    'terms: for id in walk.ids() {
        let next = next_chain(alloc, store, walk, &chains, *id)?;
        chains.push(next)?;
    }
    Ok(chains)
}

// The chain of the next term of a walk, over those of the terms before it.
fn next_chain(
    alloc: Global,
    store: &mut Store,
    walk: &Walk,
    found: &[Chained],
    id: Id,
) -> Result<Chained, NoMemory>
    requires id { id < length store.old }
    requires next { IsNext store.old walk.now found.now id }
    ensures chain { IfOk result (IsChainOf store.new (tree_at store.old id)) }
    ensures grows { Grows store.old store.new }
{
    match store.node(id) {
        Node::Lit { word } => Ok(number(alloc, word.value())),
        Node::App { op, kids } => {
            let op = *op;
            let kids = SmallVec::<Id, 3>::from_slice(alloc, kids.as_slice())?;
            application_chain(alloc, store, walk, found, id, op, kids.as_slice())
        }
        _ => alone(alloc, id),
    }
}

// The chain of an application: a short one of its arguments' chains, or the application rebuilt.
fn application_chain(
    alloc: Global,
    store: &mut Store,
    walk: &Walk,
    found: &[Chained],
    id: Id,
    op: Op,
    kids: &[Id],
) -> Result<Chained, NoMemory>
    requires id { id < length store.old }
    requires application { IsApplication store.old walk.now found.now op kids.now }
    requires tree { tree_at store.old id ≡ Apply op (trees_at store.old kids.now) }
    ensures chain { IfOk result (IsChainOf store.new (tree_at store.old id)) }
    ensures grows { Grows store.old store.new }
{
    let _terms = store.len();
    let all = ones(store.sort(id).width());
    match short_chain(alloc, store, walk, found, op, kids, all)? {
        Some(chain) => Ok(chain),
        None => {
            let made = rebuilt(alloc, store, walk, found, op, kids)?;
            alone(alloc, made)
        }
    }
}

// The chain of an operator's application, where it is a short one.
fn short_chain(
    alloc: Global,
    store: &Store,
    walk: &Walk,
    found: &[Chained],
    op: Op,
    kids: &[Id],
    all: u128,
) -> Result<Option<Chained>, NoMemory>
    requires application { IsApplication store.now walk.now found.now op kids.now }
    requires shared { AreShared store.now }
    ensures chain { IfOk result (λ made. option_map (chain_at store.now) made
        ≡ short_chain (number_of op all (first_bits (trees_at store.now kids.now)))
        (chains (trees_at store.now kids.now))) }
    ensures below { IfOk result (λ made. IfSome made (λ chain.
        AreBelow (length store.now) chain.atoms.items)) }
{
    match number_of(op, all, first_bits(store, kids)) {
        Some(turned) => {
            let made = united(alloc, store, walk, found, turned, kids)?;
            Ok(if_short(made))
        }
        None => Ok(None),
    }
}

// A chain that is short.
fn if_short(chain: Chained) -> Option<Chained>
    ensures { result ≡ (if nat_le (length chain.atoms.items) 64 then Some chain else None) }
{
    if chain.atoms.len() <= MOST {
        Some(chain)
    } else {
        None
    }
}

// What an operator adds to the chains of its arguments, where it makes a chain.
fn number_of(op: Op, all: u128, bits: u8) -> Option<u128>
    ensures { result ≡ number_of op all bits }
{
    match op {
        Op::Xor => Some(0),
        Op::BvXor => Some(0),
        Op::Not => Some(all),
        Op::BvNot => Some(all),
        Op::BvXnor => Some(all),
        Op::Equal => if_bit(all, bits),
        Op::BvComp => if_bit(all, bits),
        _ => None,
    }
}

// The same of operators that make chains of bits alone.
fn if_bit(all: u128, bits: u8) -> Option<u128>
    ensures { result ≡ (if bits == 1 then Some all else None) }
{
    if bits == 1 { Some(all) } else { None }
}

// The bits of the first of some terms.
fn first_bits(store: &Store, kids: &[Id]) -> u8
    requires kids { All (λ kid. kid < length store.now) kids.now }
    ensures { result ≡ first_bits (trees_at store.now kids.now) }
{
    match kids {
        [] => 0,
        [first, ..] => store.sort(*first).width(),
    }
}

// The chains of these terms and a number in one.
fn united(
    alloc: Global,
    store: &Store,
    walk: &Walk,
    found: &[Chained],
    turned: u128,
    kids: &[Id],
) -> Result<Chained, NoMemory>
    requires found { AreChains store.now (tree_at store.now) walk.now found.now }
    requires kids { All (IsEarlier walk.now (length found.now)) kids.now }
    requires shared { AreShared store.now }
    ensures chain { IfOk result (λ made. chain_at store.now made
        ≡ united turned (chains (trees_at store.now kids.now))) }
    ensures below { IfOk result (λ made. AreBelow (length store.now) made.atoms.items) }
{
    match kids {
        [] => Ok(number(alloc, turned)),
        [first, rest @ ..] => {
            let mut made = flipped(alloc, chain_of(store, walk, found, *first), turned)?;
            link_each(store, walk, found, rest, &mut made)?;
            Ok(made)
        }
    }
}

// The chains of these terms more.
fn link_each(
    store: &Store,
    walk: &Walk,
    found: &[Chained],
    kids: &[Id],
    made: &mut Chained,
) -> Result<(), NoMemory>
    requires found { AreChains store.now (tree_at store.now) walk.now found.now }
    requires kids { All (IsEarlier walk.now (length found.now)) kids.now }
    requires shared { AreShared store.now }
    requires below { AreBelow (length store.now) made.old.atoms.items }
    ensures chain { OnOk result (chain_at store.now made.new
        ≡ fold linked (chain_at store.now made.old) (chains (trees_at store.now kids.now))) }
    ensures below { OnOk result (AreBelow (length store.now) made.new.atoms.items) }
{
    'kids: for kid in kids {
        link(made, chain_of(store, walk, found, *kid))?;
    }
    Ok(())
}

// The chain that was found for a term.
fn chain_of<'a>(store: &Store, walk: &Walk, found: &'a [Chained], id: Id) -> &'a Chained
    requires found { AreChains store.now (tree_at store.now) walk.now found.now }
    requires id { IsEarlier walk.now (length found.now) id }
    ensures { IsChainOf store.now (tree_at store.now id) result.now }
{
    walk.result_of(found, id)
}

// An application with its arguments as the terms of their chains.
fn rebuilt(
    alloc: Global,
    store: &mut Store,
    walk: &Walk,
    found: &[Chained],
    op: Op,
    kids: &[Id],
) -> Result<Id, NoMemory>
    requires application { IsApplication store.old walk.now found.now op kids.now }
    ensures id { IfOk result (λ made. StandsAt store.new made (Apply op
        (terms_of (trees_at store.old kids.now) (chains (trees_at store.old kids.now))))) }
    ensures grows { Grows store.old store.new }
{
    let terms = terms_of(alloc, store, walk, found, kids)?;
    let _terms = store.len();
    store.put(Node::App { op, kids: terms })
}

// The terms of the chains of these terms.
fn terms_of(
    alloc: Global,
    store: &mut Store,
    walk: &Walk,
    found: &[Chained],
    kids: &[Id],
) -> Result<SmallVec<Id, 3>, NoMemory>
    requires found { AreChains store.old (tree_at store.old) walk.now found.now }
    requires walk { IsWalk store.old walk.now }
    requires kids { All (IsEarlier walk.now (length found.now)) kids.now }
    requires below { All (λ kid. kid < length store.old) kids.now }
    ensures terms { IfOk result (λ terms. AllZip (λ kid term. StandsAt store.new term
        (xored (tree_at store.old kid))) kids.now terms.items) }
    ensures grows { Grows store.old store.new }
{
    let mut terms = SmallVec::new(alloc);
    'kids: for kid in kids {
        let chain = chain_of(store, walk, found, *kid);
        let term = term_of(alloc, store, *kid, chain)?;
        terms.push(term)?;
    }
    Ok(terms)
}

// The term of the chain of a term.
fn term_of(alloc: Global, store: &mut Store, id: Id, chain: &Chained) -> Result<Id, NoMemory>
    requires id { id < length store.old }
    requires chain { IsChainOf store.old (tree_at store.old id) chain.now }
    ensures id { IfOk result (λ made. StandsAt store.new made (xored (tree_at store.old id))) }
    ensures grows { Grows store.old store.new }
{
    let sort = store.sort(id);
    chain_term(alloc, store, sort, chain)
}
