//! Terms that are put into a store.

ghost use Rattle.std.specs.Prelude.{◌≡◌, ◌<◌, Some, All, IfOk, length};
ghost use Rattle.qv_words.specs.declared.sort.Sort.TheVariants.{Bool as BoolSort};
ghost use Rattle.qv_words.specs.declared.op.Op.TheVariants.{And};
ghost use Rattle.qv_words.specs.Word.{word_sort, word_value};
ghost use Rattle.qv_words.specs.Tree.{Apply, Literal, tree_sort};
ghost use Rattle.qv_words.specs.Sorted.{IsSorted};
ghost use Rattle.qv_words.specs.Prenex.{binary};
ghost use Rattle.qv_store.specs.Nodes.{tree_at, trees_at};
ghost use Rattle.qv_store.specs.Stores.{AreShared, Grows, StandsAt};

use qv_store::{Id, NoMemory, Node, Store};
use qv_words::{Op, Word};
use smallvec::SmallVec;
use std::alloc::Global;

// An operator's application.
pub(crate) fn put_application(
    alloc: Global,
    store: &mut Store,
    op: Op,
    kids: &[Id],
) -> Result<Id, NoMemory>
    requires kids { All (λ id. id < length store.old) kids.now }
    requires sorted { IsSorted (Apply op (trees_at store.old kids.now)) }
    ensures id { IfOk result (λ id. StandsAt store.new id
        (Apply op (trees_at store.old kids.now))) }
    ensures grows { Grows store.old store.new }
    ensures shared { AreShared store.new }
{
    let _few = store.len();
    let kids = SmallVec::from_slice(alloc, kids)?;
    store.put(Node::App { op, kids })
}

// The conjunction of two formulas.
pub(crate) fn put_and(alloc: Global, store: &mut Store, a: Id, b: Id) -> Result<Id, NoMemory>
    requires a { a < length store.old }
    requires b { b < length store.old }
    requires a_bool { tree_sort (tree_at store.old a) ≡ Some BoolSort }
    requires b_bool { tree_sort (tree_at store.old b) ≡ Some BoolSort }
    ensures id { IfOk result (λ id. StandsAt store.new id
        (binary And (tree_at store.old a) (tree_at store.old b))) }
    ensures grows { Grows store.old store.new }
    ensures shared { AreShared store.new }
{
    let _few = store.len();
    put_application(alloc, store, Op::And, &[a, b])
}

// A literal.
pub(crate) fn put_literal(store: &mut Store, word: Word) -> Result<Id, NoMemory>
    ensures id { IfOk result (λ id. StandsAt store.new id
        (Literal (word_sort word) (word_value word))) }
    ensures grows { Grows store.old store.new }
    ensures shared { AreShared store.new }
{
    store.put(Node::Lit { word })
}
