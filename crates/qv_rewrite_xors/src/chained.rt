//! Chains: a number, and the terms whose bits are added to its bits modulo 2.

ghost use Rattle.std.specs.Prelude.{◌≡◌, ◌==◌, ◌<◌, [], ◌∷◌, IfOk, OnOk, IfSome, length, fold};
ghost use Rattle.std.specs.Prelude.{bit_xor};
ghost use Rattle.qv_rewrite_sums.specs.Held.{first_place};
ghost use Rattle.qv_rewrite_xors.specs.Held.{toggled_ids};

use qv_store::{Id, NoMemory};
use smallvec::SmallVec;
use std::alloc::Global;

// A chain.
#[derive(Drop)]
pub(crate) struct Chained {
    pub(crate) constant: u128,
    pub(crate) atoms: SmallVec<Id, 4>,
}

// A number alone.
pub(crate) fn number(alloc: Global, constant: u128) -> Chained
    ensures constant { result.constant ≡ constant }
    ensures atoms { result.atoms.items ≡ [] }
{
    Chained {
        constant,
        atoms: SmallVec::new(alloc),
    }
}

// A term alone.
pub(crate) fn alone(alloc: Global, id: Id) -> Result<Chained, NoMemory>
    ensures constant { IfOk result (λ made. made.constant ≡ 0) }
    ensures atoms { IfOk result (λ made. made.atoms.items ≡ id ∷ []) }
{
    let atoms = SmallVec::from_slice(alloc, &[id])?;
    Ok(Chained { constant: 0, atoms })
}

// A chain with a number more.
pub(crate) fn flipped(alloc: Global, chain: &Chained, number: u128) -> Result<Chained, NoMemory>
    ensures constant { IfOk result (λ made. made.constant ≡ bit_xor chain.now.constant number) }
    ensures atoms { IfOk result (λ made. made.atoms.items ≡ chain.now.atoms.items) }
{
    let atoms = SmallVec::from_slice(alloc, chain.atoms.as_slice())?;
    Ok(Chained {
        constant: chain.constant ^ number,
        atoms,
    })
}

// A chain more: terms of both go.
pub(crate) fn link(chain: &mut Chained, other: &Chained) -> Result<(), NoMemory>
    ensures constant { OnOk result (chain.new.constant
        ≡ bit_xor chain.old.constant other.now.constant) }
    ensures atoms { OnOk result (chain.new.atoms.items
        ≡ fold toggled_ids chain.old.atoms.items other.now.atoms.items) }
{
    chain.constant ^= other.constant;
    toggle_each(&mut chain.atoms, other.atoms.as_slice())
}

// More terms, of which those that are there go.
fn toggle_each(atoms: &mut SmallVec<Id, 4>, others: &[Id]) -> Result<(), NoMemory>
    ensures { OnOk result (atoms.new.items ≡ fold toggled_ids atoms.old.items others.now) }
{
    'others: for id in others {
        toggle(atoms, *id)?;
    }
    Ok(())
}

// One term more: it goes together with its like, or it comes last.
fn toggle(atoms: &mut SmallVec<Id, 4>, id: Id) -> Result<(), NoMemory>
    ensures { OnOk result (atoms.new.items ≡ toggled_ids atoms.old.items id) }
{
    match place_of(atoms.as_slice(), id) {
        Some(place) => {
            atoms.remove(place);
        }
        None => atoms.push(id)?,
    }
    Ok(())
}

// Where a term first stands in a list.
fn place_of(ids: &[Id], id: Id) -> Option<usize>
    ensures place { result ≡ first_place (λ other. other == id) ids.now }
    ensures within { IfSome result (λ k. k < length ids.now) }
{
    'places: for place in 0..ids.len() {
        if ids[place] == id {
            return Some(place);
        }
    }
    None
}
