//! By which rule a term under a sign is put into prenex form, and which smaller terms that takes.

ghost use Rattle.std.specs.Prelude.{◌≡◌, ℕ, ◌<◌, Bool, Some, List, [], ◌∷◌, All, IfOk, length};
ghost use Rattle.std.specs.Prelude.{if◌then◌else◌, None, MatchOption, OnOk};
ghost use Rattle.qv_words.specs.declared.op.Op.TheVariants.{And, Or, Equal, Ite};
ghost use Rattle.qv_words.specs.Tree.{Tree, Apply};
ghost use Rattle.qv_words.specs.Sorted.{IsSorted};
ghost use Rattle.qv_words.specs.Prenex.{negation, first_choice};
ghost use Rattle.qv_store.specs.Nodes.{tree_at, trees_at};
ghost use Rattle.qv_store.specs.Stores.{StandsAt, AreShared, Grows};
ghost use Rattle.qv_prenex_laws.specs.RuleLaws.{rule_at, split_rule, application_rule, alike_rule};
ghost use Rattle.qv_prenex_laws.specs.RuleLaws.{unlike_rule, chosen_rule};
ghost use Rattle.qv_prenex_laws.specs.RuleLaws.{Joined as JoinedBy};
ghost use Rattle.qv_prenex_matrix.specs.Rules.{rule_in, is_bound, IsRuleBelow};
ghost use Rattle.qv_prenex_matrix.specs.Finding.{FindsRule};

use qv_prenex_splits::{SplitStore, sides_of};
use qv_store::{Id, NoMemory, Node};
use qv_words::{Op, Sort};
use smallvec::SmallVec;
use std::alloc::Global;

/// A term under a sign.
#[derive(Clone, Copy)]
pub struct Part {
    pub plus: bool,
    pub term: Id,
}

/// How the form of a term under a sign comes from those of smaller ones: it has no quantifier; it is
/// that of a term under the other sign; two are joined by an operator, each under the sign; two
/// pairs are joined, each by `and`, and these by `or`; or a quantifier, which under a minus is the
/// other one, stands before that of its body.
#[derive(Clone, Copy)]
pub enum Rule {
    Plain,
    Turned(Id),
    Joined(Op, Id, Id),
    Crossed(Part, Part, Part, Part),
    Bound {
        existential: bool,
        level: u64,
        sort: Sort,
        body: Id,
    },
}

/// Whether a quantifier stands at the top.
pub fn is_bound(rule: &Rule) -> bool
    ensures { result ≡ is_bound rule.now }
{
    matches!(rule, Rule::Bound { .. })
}

// What is found of a term's rule: the rule, or an implication, whose left side has to be negated,
// or that its first `ite` between bit-vectors has to be split.
#[derive(Clone, Copy)]
enum Found {
    Known(Rule),
    Implied(Id, Id),
    Other,
}

/// The rule of a term under a sign. Terms that it names and that aren't there are put into the
/// store. A term is split once.
pub fn rule_of(alloc: Global, store: &mut SplitStore, part: Part) -> Result<Rule, NoMemory>
    requires { part.term < length store.old }
    ensures rule { IfOk result (λ rule. rule_in store.new rule
        ≡ rule_at part.plus (tree_at store.old part.term)) }
    ensures below { IfOk result (λ rule. IsRuleBelow (length store.new) rule) }
    ensures grows { Grows store.old store.new }
    ensures shared { AreShared store.new }
{
    let Part { plus, term } = part;
    match find(store, plus, term) {
        Found::Known(rule) => Ok(rule),
        Found::Implied(a, b) => implied(alloc, store, plus, a, b),
        Found::Other => split(alloc, store, plus, term),
    }
}

// The rule of an implication.
fn implied(
    alloc: Global,
    store: &mut SplitStore,
    plus: bool,
    a: Id,
    b: Id,
) -> Result<Rule, NoMemory>
    requires a { a < length store.old }
    requires b { b < length store.old }
    requires sorted { IsSorted (negation (tree_at store.old a)) }
    ensures rule { IfOk result (λ rule. rule_in store.new rule
        ≡ JoinedBy (if plus then Or else And) (negation (tree_at store.old a))
        (tree_at store.old b)) }
    ensures below { IfOk result (λ rule. IsRuleBelow (length store.new) rule) }
    ensures grows { Grows store.old store.new }
    ensures shared { AreShared store.new }
{
    let negated = put_negation(alloc, store, a)?;
    let op = if plus { Op::Or } else { Op::And };
    Ok(Rule::Joined(op, negated, b))
}

// A term's negation.
pub(crate) fn put_negation(alloc: Global, store: &mut SplitStore, a: Id) -> Result<Id, NoMemory>
    requires a { a < length store.old }
    requires sorted { IsSorted (negation (tree_at store.old a)) }
    ensures id { IfOk result (λ id. StandsAt store.new id (negation (tree_at store.old a))) }
    ensures grows { Grows store.old store.new }
    ensures shared { AreShared store.new }
{
    let kids = SmallVec::from_slice(alloc, &[a])?;
    store.put(Node::App { op: Op::Not, kids })
}

// The rule of a term whose first `ite` is split.
fn split(alloc: Global, store: &mut SplitStore, plus: bool, term: Id) -> Result<Rule, NoMemory>
    requires { term < length store.old }
    ensures rule { IfOk result (λ rule. rule_in store.new rule
        ≡ split_rule plus (tree_at store.old term)
        (first_choice (tree_at store.old term))) }
    ensures below { IfOk result (λ rule. IsRuleBelow (length store.new) rule) }
    ensures grows { Grows store.old store.new }
    ensures shared { AreShared store.new }
{
    match sides_of(alloc, store, term)? {
        Some(sides) => Ok(chosen(plus, sides.condition, sides.yes, sides.no)),
        None => Ok(Rule::Plain),
    }
}

// What is found of the rule of a term under a sign.
fn find(store: &SplitStore, plus: bool, term: Id) -> Found
    requires { term < length store.now }
    ensures found { FindsRule store.now plus (tree_at store.now term)
        (rule_at plus (tree_at store.now term)) result }
    ensures shared { AreShared store.now }
{
    if !store.quantified(term) {
        return Found::Known(Rule::Plain);
    }
    match store.node(term) {
        Node::All { level, sort, body } => bound(!plus, *level, *sort, *body),
        Node::Ex { level, sort, body } => bound(plus, *level, *sort, *body),
        Node::App { op, kids } => application(store, plus, *op, kids.as_slice()),
        Node::Const { .. } | Node::Var { .. } | Node::Lit { .. } => Found::Known(Rule::Plain),
    }
}

// A quantifier.
fn bound(existential: bool, level: u64, sort: Sort, body: Id) -> Found
    ensures { result ≡ Found.Known (Rule.Bound existential level sort body) }
{
    Found::Known(Rule::Bound {
        existential,
        level,
        sort,
        body,
    })
}

// What is found of the rule of an application that is quantified.
fn application(store: &SplitStore, plus: bool, op: Op, kids: &[Id]) -> Found
    requires { All (λ kid. kid < length store.now) kids.now }
    ensures { FindsRule store.now plus (Apply op (trees_at store.now kids.now))
        (application_rule plus op (trees_at store.now kids.now)) result }
{
    match kids {
        [a] => of_one(op, *a),
        [a, b] => of_two(store, plus, op, *a, *b),
        [c, a, b] => of_three(store, plus, op, *c, *a, *b),
        _ => Found::Other,
    }
}

// The same of one argument.
fn of_one(op: Op, a: Id) -> Found
    ensures { (trees : List Tree) (plus : Bool) → a < length trees →
        FindsRule trees plus (Apply op (trees_at trees (a ∷ [])))
        (application_rule plus op (trees_at trees (a ∷ []))) result }
{
    match op {
        Op::Not => Found::Known(Rule::Turned(a)),
        _ => Found::Other,
    }
}

// The same of two arguments.
fn of_two(store: &SplitStore, plus: bool, op: Op, a: Id, b: Id) -> Found
    requires a { a < length store.now }
    requires b { b < length store.now }
    ensures { FindsRule store.now plus (Apply op (trees_at store.now (a ∷ b ∷ [])))
        (application_rule plus op (trees_at store.now (a ∷ b ∷ []))) result }
{
    match op {
        Op::And => joined(plus, a, b),
        Op::Or => joined(!plus, a, b),
        Op::Implies => Found::Implied(a, b),
        Op::Xor => Found::Known(compared(!plus, a, b)),
        Op::Equal => of_equal(store, plus, a, b),
        _ => Found::Other,
    }
}

// The rule of two terms joined by `and`, or else by `or`.
fn joined(conjunction: bool, a: Id, b: Id) -> Found
    ensures { result ≡ Found.Known (Rule.Joined (if conjunction then And else Or) a b) }
{
    let op = if conjunction { Op::And } else { Op::Or };
    Found::Known(Rule::Joined(op, a, b))
}

// What is found of the rule of an equation.
fn of_equal(store: &SplitStore, plus: bool, a: Id, b: Id) -> Found
    requires a { a < length store.now }
    requires b { b < length store.now }
    ensures { FindsRule store.now plus (Apply Equal (trees_at store.now (a ∷ b ∷ [])))
        (application_rule plus Equal (trees_at store.now (a ∷ b ∷ []))) result }
{
    if store.sort(a) == Sort::Bool {
        Found::Known(compared(plus, a, b))
    } else {
        Found::Other
    }
}

// Both hold or neither does, or else one holds but not the other.
fn compared(alike: bool, a: Id, b: Id) -> Rule
    ensures is { (trees : List Tree) → rule_in trees result
        ≡ (if alike then alike_rule (tree_at trees a) (tree_at trees b)
        else unlike_rule (tree_at trees a) (tree_at trees b)) }
    ensures below { (n : ℕ) → a < n → b < n → IsRuleBelow n result }
{
    Rule::Crossed(
        under(true, a),
        under(alike, b),
        under(false, a),
        under(!alike, b),
    )
}

// The same of three arguments.
fn of_three(store: &SplitStore, plus: bool, op: Op, c: Id, a: Id, b: Id) -> Found
    requires c { c < length store.now }
    requires a { a < length store.now }
    requires b { b < length store.now }
    ensures { FindsRule store.now plus (Apply op (trees_at store.now (c ∷ a ∷ b ∷ [])))
        (application_rule plus op (trees_at store.now (c ∷ a ∷ b ∷ []))) result }
{
    match op {
        Op::Ite => of_ite(store, plus, c, a, b),
        _ => Found::Other,
    }
}

// What is found of the rule of an `ite`.
fn of_ite(store: &SplitStore, plus: bool, c: Id, a: Id, b: Id) -> Found
    requires c { c < length store.now }
    requires a { a < length store.now }
    requires b { b < length store.now }
    ensures { FindsRule store.now plus (Apply Ite (trees_at store.now (c ∷ a ∷ b ∷ [])))
        (application_rule plus Ite (trees_at store.now (c ∷ a ∷ b ∷ []))) result }
{
    if store.sort(a) == Sort::Bool {
        Found::Known(chosen(plus, c, a, b))
    } else {
        Found::Other
    }
}

// The one under the condition, the other under its negation.
fn chosen(plus: bool, c: Id, a: Id, b: Id) -> Rule
    ensures is { (trees : List Tree) → rule_in trees result
        ≡ chosen_rule plus (tree_at trees c) (tree_at trees a) (tree_at trees b) }
    ensures below { (n : ℕ) → c < n → a < n → b < n → IsRuleBelow n result }
{
    Rule::Crossed(
        under(true, c),
        under(plus, a),
        under(false, c),
        under(plus, b),
    )
}

fn under(plus: bool, term: Id) -> Part
    ensures { result ≡ record { plus = plus; term = term } }
{
    Part { plus, term }
}
