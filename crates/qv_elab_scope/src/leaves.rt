//! The terms of single tokens.

ghost use Rattle.std.specs.Prelude.{◌≡◌, ℕ, List, Some, Result};
ghost use Rattle.qv_text.specs.Grammar.{IsWhole};
ghost use Rattle.qv_words.specs.Tree.{Tree as Term};
ghost use Rattle.qv_elab_defs.specs.Faults.{Fault};
ghost use Rattle.qv_store.specs.Stores.{Grows};
ghost use Rattle.qv_elab_defs.specs.Scopes.{Scope as Defs, Context, Entry, found};
ghost use Rattle.qv_elab_defs.specs.Leaves.{truth_named, entry_tree, named_tree, token_tree};
ghost use Rattle.qv_elab_defs.specs.Answers.{Answers, Writes};
ghost use Rattle.qv_elab_defs.specs.Beginnings.{Begins};
ghost use Rattle.qv_elab_scope.specs.Kept.{IsKeptFor, IsScopeIn};
ghost use Rattle.qv_elab_defs.specs.TreeLaws.{IsScope};
ghost use Rattle.qv_elab_scope.specs.Ids.{AreNamedAt, HasLawfulSort};

use crate::headed::use_kept;
use crate::scope::{Kept, Scope};
use qv_elab_defs::{ElabFault, ElabKind};
use qv_elab_items::{NamedIds, digits_literal, unquoted};
use qv_store::{Id, Node, Store};
use qv_text::TokenKind;
use qv_words::Word;
use std::alloc::Global;

/// The term of a literal, or its fault.
pub fn put_written(store: &mut Store, written: Result<Word, ElabFault>) -> Result<Id, ElabFault>
    ensures answers { (given : Result Term Fault) → Writes given written →
        Answers store.new given result }
    ensures begins { (given : Result Term Fault) → Writes given written → Begins given result }
    ensures grows { Grows store.old store.new }
{
    let word = written?;
    let id = store.put(Node::Lit { word })?;
    Ok(id)
}

/// A truth value by its name, where that is nothing else's.
fn truth_leaf(store: &mut Store, place: u64, name: &[u8]) -> Result<Id, ElabFault>
    ensures answers { Answers store.new (truth_named place name.now) result }
    ensures begins { Begins (truth_named place name.now) result }
    ensures grows { Grows store.old store.new }
{
    let holds = name == b"true".as_slice();
    if !holds && name != b"false".as_slice() {
        return Err(ElabFault::At {
            place,
            kind: ElabKind::UnknownName,
        });
    }
    put_written(store, Ok(Word::truth(holds)))
}

/// What is kept for a name, as a term without arguments below so many binders.
fn kept_leaf(
    alloc: Global,
    store: &mut Store,
    binders: u64,
    place: u64,
    kept: &Kept,
) -> Result<Id, ElabFault>
    requires lawful { HasLawfulSort kept.now }
    requires kept { (scope : Defs) × (entry : Entry) × IsScope scope
        × IsKeptFor store.old scope kept.now entry }
    ensures answers { (scope : Defs) (entry : Entry) (name : List ℕ) →
        IsScope scope → IsKeptFor store.old scope kept.now entry →
        Answers store.new (entry_tree place name binders (Some entry)) result }
    ensures begins { (scope : Defs) (entry : Entry) (name : List ℕ) →
        IsScope scope → IsKeptFor store.old scope kept.now entry →
        Begins (entry_tree place name binders (Some entry)) result }
    ensures grows { Grows store.old store.new }
{
    match kept {
        Kept::Constant { index, sort } => {
            let id = store.put(Node::Const {
                index: *index,
                sort: *sort,
            })?;
            Ok(id)
        }
        Kept::Definition { sorts, .. } => {
            if !sorts.is_empty() {
                return Err(ElabFault::At {
                    place,
                    kind: ElabKind::Arity,
                });
            }
            use_kept(alloc, store, place, binders, kept, &[])
        }
        Kept::Synonym { .. } => Err(ElabFault::At {
            place,
            kind: ElabKind::UnknownName,
        }),
    }
}

/// The term of a name where others are bound around it.
fn name_leaf(
    alloc: Global,
    store: &mut Store,
    scope: &Scope,
    bound: &NamedIds,
    binders: u64,
    place: u64,
    name: &[u8],
) -> Result<Id, ElabFault>
    requires { (defs : Defs) × IsScopeIn store.old scope.now defs }
    ensures answers { (defs : Defs) (c : Context) → IsScopeIn store.old scope.now defs →
        c.scope ≡ defs → c.binders ≡ binders → AreNamedAt store.old bound.now c.bound →
        Answers store.new (named_tree place name.now c (found name.now c.bound)) result }
    ensures begins { (defs : Defs) (c : Context) → IsScopeIn store.old scope.now defs →
        c.scope ≡ defs → c.binders ≡ binders → AreNamedAt store.old bound.now c.bound →
        Begins (named_tree place name.now c (found name.now c.bound)) result }
    ensures grows { Grows store.old store.new }
{
    if let Some(id) = bound.find(name) {
        return Ok(id);
    }
    match scope.find(name) {
        Some(kept) => kept_leaf(alloc, store, binders, place, kept),
        None => truth_leaf(store, place, name),
    }
}

/// The term of a token.
pub fn leaf(
    alloc: Global,
    store: &mut Store,
    scope: &Scope,
    bound: &NamedIds,
    binders: u64,
    place: u64,
    kind: TokenKind,
    text: &[u8],
) -> Result<Id, ElabFault>
    requires scope { (defs : Defs) × IsScopeIn store.old scope.now defs }
    requires token { IsWhole kind text.now }
    ensures answers { (defs : Defs) (c : Context) → IsScopeIn store.old scope.now defs →
        c.scope ≡ defs → c.binders ≡ binders → AreNamedAt store.old bound.now c.bound →
        Answers store.new (token_tree kind place text.now c) result }
    ensures begins { (defs : Defs) (c : Context) → IsScopeIn store.old scope.now defs →
        c.scope ≡ defs → c.binders ≡ binders → AreNamedAt store.old bound.now c.bound →
        Begins (token_tree kind place text.now c) result }
    ensures grows { Grows store.old store.new }
{
    match kind {
        TokenKind::Symbol => name_leaf(alloc, store, scope, bound, binders, place, unquoted(text)),
        TokenKind::Hex => put_written(store, digits_literal(place, 4, &text[2..])),
        TokenKind::Binary => put_written(store, digits_literal(place, 1, &text[2..])),
        _ => Err(ElabFault::At {
            place,
            kind: ElabKind::Form,
        }),
    }
}
