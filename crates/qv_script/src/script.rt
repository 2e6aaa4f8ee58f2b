//! Scripts: what their commands have made so far, in a store.

ghost use Rattle.std.specs.Prelude.{◌≡◌, ◌^◌, List, Some, OnErr, min};
ghost use Rattle.qv_script_defs.specs.Settings.{limit_of};
ghost use Rattle.std.specs.Option.{option_map};
ghost use Rattle.qv_words.specs.Tree.{Tree};
ghost use Rattle.qv_sexpr.specs.Script.{Tree as Expression};
ghost use Rattle.qv_sexpr.specs.Items.{IsExpr, IsExprOf};
ghost use Rattle.qv_store.specs.Stores.{Grows};
ghost use Rattle.qv_script_defs.specs.State.{State, answered};
ghost use Rattle.qv_script_defs.specs.Commands.{after};
ghost use Rattle.qv_script_stack.specs.Held.{IsScriptIn, HaveSorts, nothing, answer_of, terms_in};
ghost use Rattle.qv_script_stack.specs.Steps.{Gives, RunsOut};
ghost use Rattle.qv_script.specs.Beginnings.{expression_beginning};

use crate::step::step;
use qv_script_defs::{Counts, Effect, ScriptFault};
use qv_script_stack::{Declared, Last, Named, Stack};
use qv_sexpr::Expr;
use qv_store::{Id, Store};
use std::alloc::Global;
use std::marker::Model;

/// What a script has made so far: the constants and definitions in force and the assertions in
/// force, by levels, and the answer of the last check.
#[derive(Drop)]
pub struct Script {
    stack: Stack,
}

impl Model for Script {
    ghost use Rattle.qv_script_stack.specs.Held.{Held};

    ghost Value = { Held };

    ghost view = { λ a. a.stack };
}

impl Script {
    /// Where a script begins.
    pub fn new(alloc: Global) -> Script
        ensures { result ≡ nothing }
    {
        Script {
            stack: Stack::new(alloc),
        }
    }

    /// The ids of the assertions in force, in their order.
    pub fn assertions(&self) -> &[Id]
        ensures { result.now ≡ self.now.assertions }
    {
        self.stack.assertions()
    }

    /// The assertions in force that have names, in their order.
    pub fn named(&self) -> &[Named]
        ensures { result.now ≡ self.now.named }
    {
        self.stack.named()
    }

    /// The ids of what the last check assumed.
    pub fn assumptions(&self) -> &[Id]
        ensures { result.now ≡ self.now.assumed }
    {
        self.stack.assumptions()
    }

    /// What the last check assumed, as it is written, where that was a check of assumptions.
    pub fn terms(&self) -> &[Vec<u8>]
        ensures { result.now ≡ terms_in self.now.terms }
    {
        self.stack.terms()
    }

    /// The constants in force, in the order of their declaration.
    pub fn constants(&self) -> &[Declared]
        ensures { result.now ≡ self.now.constants }
    {
        self.stack.constants()
    }

    /// Whether `:print-success` is on.
    pub fn success(&self) -> bool
        ensures { result ≡ self.now.success }
    {
        self.stack.success()
    }

    /// How many conflicts each check may have by `:reproducible-resource-limit`, or 2^60 where that
    /// is less; 0 where it is free.
    pub fn limit(&self) -> u64
        ensures { (trees : List Tree) (s : State) → IsScriptIn trees self.now s →
            result ≡ min (limit_of s) (2 ^ 60) }
    {
        self.stack.limit()
    }

    /// The answer of the last check, unless it was forgotten.
    pub fn last(&self) -> Option<&Last>
        ensures { option_map (λ last. last.now) result ≡ self.now.last }
    {
        self.stack.last()
    }

    /// What the last check was charged for, if there was one.
    pub fn counts(&self) -> Option<Counts>
        ensures { result ≡ self.now.counts }
    {
        self.stack.counts()
    }

    /// The last check has this answer, and was charged for so much.
    pub fn answered(&mut self, last: Last, counts: Counts)
        ensures held { self.new ≡ record self.old { last = Some last; counts = Some counts } }
        ensures state { (trees : List Tree) (s : State) → HaveSorts self.old.constants (Some last) →
            IsScriptIn trees self.old s →
            IsScriptIn trees self.new (answered (answer_of last) counts s) }
    {
        self.stack.answered(last, counts);
    }

    /// Does the command that an expression is: its effect, or why it is refused. Where it is
    /// refused, the script is as it was; the store may hold further nodes.
    pub fn step(&mut self, store: &mut Store, expr: &Expr) -> Result<Effect, ScriptFault>
        requires expr { IsExpr expr.now }
        requires held { (s : State) × IsScriptIn store.old self.old s }
        ensures step { (s : State) (e : Expression) → IsScriptIn store.old self.old s →
            IsExprOf e expr.now → Gives store.new self.new (after s e) result }
        ensures short { (s : State) (e : Expression) → IsScriptIn store.old self.old s →
            IsExprOf e expr.now → RunsOut (expression_beginning s e) result }
        ensures err { OnErr result (self.new ≡ self.old) }
        ensures grows { Grows store.old store.new }
        ensures held { (s : State) × IsScriptIn store.new self.new s }
    {
        step(&mut self.stack, store, expr)
    }
}
