//! A term rebuilt from what was made of its arguments, or what has to be made of them first.

ghost use Rattle.std.specs.Prelude.{◌≡◌, ◌<◌, ◌≤◌, All, Some, None, IfOk, IfErr, IsSome, IsTrue};
ghost use Rattle.std.specs.Prelude.{length};
ghost use Rattle.std.specs.Prelude.{nat_eq, unwrap_or};
ghost use Rattle.std.specs.List.{Contains};
ghost use Rattle.std.specs.HashMap.{get};
ghost use Rattle.qv_words.specs.Tree.{Apply, tree_sort, IsQuantifierFree};
ghost use Rattle.qv_words.specs.Sorted.{IsSorted};
ghost use Rattle.qv_store.specs.Nodes.{tree_at};
ghost use Rattle.qv_store.specs.Stores.{StandsAt, AreShared, Grows};
ghost use Rattle.qv_words.specs.Passes.{rules_in_order};
ghost use Rattle.qv_rewrite.specs.Sweep.{first_rewritten, remade};
ghost use Rattle.qv_rewrite.specs.Made.{numbers_of, literal_of, made_tree, IsMadeBelow};
ghost use Rattle.qv_rewrite.specs.Made.{trees_of_args, AreArgsBelow, Makes};
ghost use Rattle.qv_rewrite.specs.declared.rewriting.Rewriting.TheVariants.{Simplify};
ghost use Rattle.qv_rewrite.specs.Steps.{AreSwept, AreMadeOf, Finds, Steps};

use crate::args::{Args, Made};
use crate::further_rules::further;
use crate::nodes::{are_these, node_of};
use crate::rewriting::Rewriting;
use crate::rules::rewritten;
use crate::steps::{Found, Step};
use qv_store::{Id, NoMemory, Node, Store};
use qv_words::{Op, RULES, Rule, Word};
use std::alloc::Global;
use std::collections::HashMap;

// What a term is rebuilt as by the rules, or an argument, of which something
// has to be made first. The map has what was made of other terms.
pub(crate) fn step(
    alloc: Global,
    store: &mut Store,
    rewriting: Rewriting,
    made: &HashMap<Id, Id>,
    id: Id,
) -> Result<Step, NoMemory>
    requires id { id < length store.old }
    requires free { IsQuantifierFree (tree_at store.old id) }
    requires made { AreSwept rewriting store.old made.now }
    ensures step { IfOk result (Steps rewriting store.old store.new made.now id) }
    ensures grows { Grows store.old store.new }
    ensures shared { AreShared store.new }
{
    match find(store, made, id) {
        Found::Leaf => Ok(Step::Made(id)),
        Found::Missing(kid) => Ok(Step::First(kid)),
        Found::Ready(op, args) => Ok(Step::Made(rebuilt(alloc, store, rewriting, id, op, args)?)),
    }
}

// What a term is.
fn find(store: &Store, made: &HashMap<Id, Id>, id: Id) -> Found
    requires id { id < length store.now }
    requires free { IsQuantifierFree (tree_at store.now id) }
    ensures found { Finds store.now made.now id result }
    ensures shared { AreShared store.now }
{
    match store.node(id) {
        Node::App { op, kids } => match made_args(made, kids.as_slice()) {
            Ok(args) => Found::Ready(*op, args),
            Err(kid) => Found::Missing(kid),
        },
        _ => Found::Leaf,
    }
}

// What was made of the arguments of an operator, or the first of which nothing was.
fn made_args(made: &HashMap<Id, Id>, kids: &[Id]) -> Result<Args, Id>
    requires some { 1 ≤ length kids.now }
    requires few { length kids.now ≤ 3 }
    ensures made { IfOk result (λ args. AreMadeOf made.now kids.now (numbers_of args)) }
    ensures child { IfErr result (Contains kids.now) }
    ensures missing { IfErr result (λ kid. get nat_eq made.now kid ≡ None) }
{
    match kids {
        [a] => Ok(Args::One(made_of(made, *a)?)),
        [a, b] => Ok(Args::Two(made_of(made, *a)?, made_of(made, *b)?)),
        [a, b, c] => Ok(Args::Three(made_of(made, *a)?, made_of(made, *b)?, made_of(made, *c)?)),
        _ => unreachable!(),
    }
}

// What was made of a term, or the term where nothing was.
fn made_of(made: &HashMap<Id, Id>, id: Id) -> Result<Id, Id>
    ensures made { IfOk result (λ new. get nat_eq made.now id ≡ Some new) }
    ensures same { IfErr result (λ kid. kid ≡ id) }
    ensures missing { IfErr result (λ kid. get nat_eq made.now kid ≡ None) }
{
    match made.get(&id) {
        Some(new) => Ok(*new),
        None => Err(id),
    }
}

// An operator's application to these arguments, rewritten by the first of the rules that fits. It
// may be the term that is rebuilt.
fn rebuilt(
    alloc: Global,
    store: &mut Store,
    rewriting: Rewriting,
    id: Id,
    op: Op,
    args: Args,
) -> Result<Id, NoMemory>
    requires id { id < length store.old }
    requires args { AreArgsBelow (length store.old) args }
    requires sorted { IsSorted (Apply op (trees_of_args store.old args)) }
    requires shared { AreShared store.old }
    ensures id { IfOk result (λ id. StandsAt store.new id
        (unwrap_or (remade rewriting op (trees_of_args store.old args))
        (Apply op (trees_of_args store.old args)))) }
    ensures grows { Grows store.old store.new }
    ensures shared { AreShared store.new }
{
    match remade(store, rewriting, op, &args) {
        Some(made) => put_made(store, made),
        None if is_application(store, id, op, &args) => Ok(id),
        None => put_application(alloc, store, op, &args),
    }
}

// Whether a term is the operator's application to these arguments.
fn is_application(store: &Store, id: Id, op: Op, args: &Args) -> bool
    requires { id < length store.now }
    ensures { IsTrue result
        → tree_at store.now id ≡ Apply op (trees_of_args store.now args.now) }
{
    match store.node(id) {
        Node::App { op: own, kids } if *own == op => are_these(args, kids.as_slice()),
        _ => false,
    }
}

// What a rule made.
fn put_made(store: &mut Store, made: Made) -> Result<Id, NoMemory>
    requires made { IsMadeBelow (length store.old) made }
    requires shared { AreShared store.old }
    ensures id { IfOk result (λ id. StandsAt store.new id (made_tree store.old made)) }
    ensures grows { Grows store.old store.new }
    ensures shared { AreShared store.new }
{
    match made {
        Made::Term(id) => Ok(id),
        Made::Value(word) => put_literal(store, word),
    }
}

// A literal.
fn put_literal(store: &mut Store, word: Word) -> Result<Id, NoMemory>
    ensures id { IfOk result (λ id. StandsAt store.new id (literal_of word)) }
    ensures grows { Grows store.old store.new }
    ensures shared { AreShared store.new }
{
    store.put(Node::Lit { word })
}

// An operator's application to these arguments.
fn put_application(alloc: Global, store: &mut Store, op: Op, args: &Args) -> Result<Id, NoMemory>
    requires args { AreArgsBelow (length store.old) args.now }
    requires sorted { IsSorted (Apply op (trees_of_args store.old args.now)) }
    requires shared { AreShared store.old }
    ensures id { IfOk result (λ id. StandsAt store.new id
        (Apply op (trees_of_args store.old args.now))) }
    ensures grows { Grows store.old store.new }
    ensures shared { AreShared store.new }
{
    let node = node_of(alloc, op, args)?;
    store.put(node)
}

// What a rule makes of an application, where one fits.
fn remade(store: &Store, rewriting: Rewriting, op: Op, args: &Args) -> Option<Made>
    requires args { AreArgsBelow (length store.now) args.now }
    requires rank { IsSome (tree_sort (Apply op (trees_of_args store.now args.now))) }
    requires shared { AreShared store.now }
    ensures { Makes store.now result
        (remade rewriting op (trees_of_args store.now args.now)) }
{
    match rewriting {
        Rewriting::Pass(rule) => rewritten(store, rule, op, *args),
        Rewriting::Simplify => shortened(store, op, args),
    }
}

// What the rules of passes make of an application, or else the further ones.
fn shortened(store: &Store, op: Op, args: &Args) -> Option<Made>
    requires args { AreArgsBelow (length store.now) args.now }
    requires rank { IsSome (tree_sort (Apply op (trees_of_args store.now args.now))) }
    requires shared { AreShared store.now }
    ensures { Makes store.now result
        (remade Simplify op (trees_of_args store.now args.now)) }
{
    let made = first_rewritten(store, &RULES, op, args);
    if made.is_some() {
        return made;
    }
    further(store, op, args)
}

// What the first of the rules that fits makes of an application.
fn first_rewritten(store: &Store, rules: &[Rule], op: Op, args: &Args) -> Option<Made>
    requires args { AreArgsBelow (length store.now) args.now }
    requires rank { IsSome (tree_sort (Apply op (trees_of_args store.now args.now))) }
    requires shared { AreShared store.now }
    ensures { Makes store.now result
        (first_rewritten rules.now op (trees_of_args store.now args.now)) }
{
    for rule in rules {
        let made = rewritten(store, *rule, op, *args);
        if made.is_some() {
            return made;
        }
    }
    None
}
