//! The assertion stack of a script, with its settings and the answer of its last check.

ghost use Rattle.std.specs.Prelude.{◌≡◌, ◌≤◌, ◌++◌, List, Some, None, true, false};
ghost use Rattle.std.specs.Prelude.{OnOk, OnErr};
ghost use Rattle.std.specs.Prelude.{length, replicate, not, ◌&&◌, is_some};
ghost use Rattle.std.specs.Option.{option_map};
ghost use Rattle.qv_words.specs.Tree.{Tree};
ghost use Rattle.qv_elab_scope.specs.Force.{is_taken, is_sort_taken};
ghost use Rattle.qv_script_defs.specs.State.{State, answered};
ghost use Rattle.qv_script_defs.specs.Moves.{has_core, has_model};
ghost use Rattle.qv_script_stack.specs.Held.{IsScriptIn, HaveSorts, nothing, answer_of, last_of, terms_in};
ghost use Rattle.qv_script_stack.specs.Changes.{forgotten, with_constant};
ghost use Rattle.qv_script_stack.specs.Changes.{more_levels, fewer_levels, emptied, with_option};
ghost use Rattle.qv_script_stack.specs.Changes.{dropped_levels, merged_levels, unasserted, cleared};

use crate::held::{Chosen, Declared, Last, Level, Named};
use qv_elab_scope::Scope;
use qv_script_defs::Counts;
use qv_store::{Id, NoMemory};
use std::alloc::{AllocError, Global};
use std::marker::Model;

/// What a script has made so far: the constants and definitions in force and the assertions in
/// force, by levels, and the answer of the last check.
#[derive(Drop)]
pub struct Stack {
    pub(crate) alloc: Global,
    pub(crate) scope: Scope,
    pub(crate) assertions: Vec<Id>,
    pub(crate) named: Vec<Named>,
    pub(crate) constants: Vec<Declared>,
    pub(crate) starts: Vec<Level>,
    // What the last check assumed.
    pub(crate) assumed: Vec<Id>,
    // The same as it is written, where that was a check of assumptions.
    pub(crate) terms: Option<Vec<Vec<u8>>>,
    pub(crate) logic: bool,
    pub(crate) begun: bool,
    // Whether a level was ever opened.
    pub(crate) nested: bool,
    pub(crate) success: bool,
    // Whether declarations and definitions outlive their levels.
    pub(crate) global: bool,
    pub(crate) options: Vec<Chosen>,
    pub(crate) last: Option<Last>,
    // What the last check was charged for.
    pub(crate) counts: Option<Counts>,
}

// Adds so many levels that are alike.
fn add_levels(levels: &mut Vec<Level>, level: Level, count: usize) -> Result<(), NoMemory>
    ensures ok { OnOk result (levels.new.items ≡ levels.old.items ++ replicate count level) }
    ensures err { OnErr result (levels.new.items ≡ levels.old.items) }
{
    levels.reserve(count)?;
    'levels: for _ in 0..count {
        levels.push_reserved(level);
    }
    Ok(())
}

impl Model for Stack {
    ghost use Rattle.qv_script_stack.specs.Held.{Held};

    ghost Value = { Held };

    ghost view = { λ a. record {
      force = a.scope;
      assertions = a.assertions.items;
      named = a.named.items;
      constants = a.constants.items;
      starts = a.starts.items;
      assumed = a.assumed.items;
      terms = a.terms;
      logic = a.logic;
      begun = a.begun;
      nested = a.nested;
      success = a.success;
      global = a.global;
      options = a.options.items;
      last = a.last;
      counts = a.counts;
    } };
}

impl Stack {
    /// Where a script begins.
    pub fn new(alloc: Global) -> Stack
        ensures { result ≡ nothing }
    {
        Stack {
            alloc,
            scope: Scope::new(alloc),
            assertions: Vec::new(alloc),
            named: Vec::new(alloc),
            constants: Vec::new(alloc),
            starts: Vec::new(alloc),
            assumed: Vec::new(alloc),
            terms: None,
            logic: false,
            begun: false,
            nested: false,
            success: false,
            global: false,
            options: Vec::new(alloc),
            last: None,
            counts: None,
        }
    }

    /// The ids of the assertions in force, in their order.
    pub fn assertions(&self) -> &[Id]
        ensures { result.now ≡ self.now.assertions }
    {
        &self.assertions
    }

    /// The assertions in force that have names, in their order.
    pub fn named(&self) -> &[Named]
        ensures { result.now ≡ self.now.named }
    {
        &self.named
    }

    /// The ids of what the last check assumed.
    pub fn assumptions(&self) -> &[Id]
        ensures { result.now ≡ self.now.assumed }
    {
        &self.assumed
    }

    /// What the last check assumed, as it is written, where that was a check of assumptions.
    pub fn terms(&self) -> &[Vec<u8>]
        ensures { result.now ≡ terms_in self.now.terms }
    {
        match &self.terms {
            Some(terms) => terms,
            None => &[],
        }
    }

    /// The constants in force, in the order of their declaration.
    pub fn constants(&self) -> &[Declared]
        ensures { result.now ≡ self.now.constants }
    {
        &self.constants
    }

    /// Whether `:print-success` is on.
    pub fn success(&self) -> bool
        ensures { result ≡ self.now.success }
    {
        self.success
    }

    /// The answer of the last check, unless it was forgotten.
    pub fn last(&self) -> Option<&Last>
        ensures { option_map (λ last. last.now) result ≡ self.now.last }
    {
        self.last.as_ref()
    }

    /// What the last check was charged for, if there was one.
    pub fn counts(&self) -> Option<Counts>
        ensures { result ≡ self.now.counts }
    {
        self.counts
    }

    /// The last check has this answer, and was charged for so much.
    pub fn answered(&mut self, last: Last, counts: Counts)
        ensures held { self.new ≡ record self.old { last = Some last; counts = Some counts } }
        ensures state { (trees : List Tree) (s : State) → HaveSorts self.old.constants (Some last) →
            IsScriptIn trees self.old s →
            IsScriptIn trees self.new (answered (answer_of last) counts s) }
    {
        self.last = Some(last);
        self.counts = Some(counts);
    }

    /// The last answer is forgotten.
    pub fn forget(&mut self)
        ensures { self.new ≡ forgotten self.old }
    {
        self.assumed.clear();
        self.terms = None;
        self.last = None;
    }

    /// A constant is declared, whose name isn't taken.
    pub fn add_constant(&mut self, own: Declared) -> Result<(), NoMemory>
        requires { is_taken own.name.items self.old.force ≡ false }
        ensures ok { OnOk result (self.new ≡ with_constant own self.old) }
        ensures err { OnErr result (self.new ≡ self.old) }
    {
        self.constants.reserve(1)?;
        if self.scope.declare(own.name.as_slice(), own.sort).is_err() {
            return Err(AllocError);
        }
        self.constants.push_reserved(own);
        self.begun = true;
        Ok(())
    }

    /// So many levels are opened.
    pub fn open_levels(&mut self, count: usize) -> Result<(), NoMemory>
        ensures ok { OnOk result (self.new ≡ more_levels count self.old) }
        ensures err { OnErr result (self.new ≡ self.old) }
    {
        let level = Level {
            assertions: self.assertions.len(),
            named: self.named.len(),
            constants: self.constants.len(),
        };
        let before = self.starts.len();
        add_levels(&mut self.starts, level, count)?;
        if self.scope.push(count).is_err() {
            self.starts.truncate(before);
            return Err(AllocError);
        }
        self.nested = true;
        self.forget();
        Ok(())
    }

    /// So many of the innermost levels are removed, with what came in them; but declarations and
    /// definitions stay where they are global.
    pub fn close_levels(&mut self, count: usize)
        requires scope { count ≤ length self.old.force.starts }
        requires starts { length self.old.starts ≡ length self.old.force.starts }
        ensures { self.new ≡ fewer_levels count self.old }
    {
        if self.global {
            self.merge_levels(count);
        } else {
            self.drop_levels(count);
        }
    }

    // So many of the innermost levels are removed, but their declarations and definitions stay.
    fn merge_levels(&mut self, count: usize)
        requires scope { count ≤ length self.old.force.starts }
        requires starts { length self.old.starts ≡ length self.old.force.starts }
        ensures { self.new ≡ merged_levels count self.old }
    {
        let left = self.starts.len() - count;
        if let Some(level) = self.starts.get(left) {
            let kept = *level;
            self.assertions.truncate(kept.assertions);
            self.named.truncate(kept.named);
        }
        self.starts.truncate(left);
        self.scope.merge(count);
        self.forget();
    }

    // So many of the innermost levels are removed, with what came in them.
    fn drop_levels(&mut self, count: usize)
        requires scope { count ≤ length self.old.force.starts }
        requires starts { length self.old.starts ≡ length self.old.force.starts }
        ensures { self.new ≡ dropped_levels count self.old }
    {
        let left = self.starts.len() - count;
        if let Some(level) = self.starts.get(left) {
            let Level {
                assertions,
                named,
                constants,
            } = *level;
            self.assertions.truncate(assertions);
            self.named.truncate(named);
            self.constants.truncate(constants);
        }
        self.starts.truncate(left);
        self.scope.pop(count);
        self.forget();
    }

    /// All levels and assertions are removed; and declarations and definitions, unless they are
    /// global.
    pub fn empty(&mut self)
        ensures { self.new ≡ emptied self.old }
    {
        if self.global {
            self.clear_assertions();
        } else {
            self.clear_all();
        }
    }

    // All levels and assertions are removed.
    fn clear_assertions(&mut self)
        ensures { self.new ≡ unasserted self.old }
    {
        let levels = self.scope.levels();
        self.scope.merge(levels);
        self.assertions.clear();
        self.named.clear();
        self.starts.clear();
        self.forget();
    }

    // All levels, assertions, declarations and definitions are removed.
    fn clear_all(&mut self)
        ensures { self.new ≡ cleared self.old }
    {
        self.scope = Scope::new(self.alloc);
        self.assertions.clear();
        self.named.clear();
        self.constants.clear();
        self.starts.clear();
        self.forget();
    }

    /// The allocator that everything is taken from.
    pub fn alloc(&self) -> Global {
        self.alloc
    }

    /// The constants, definitions and sorts in force.
    pub fn scope(&self) -> &Scope
        ensures { result.now ≡ self.now.force }
    {
        &self.scope
    }

    /// Whether a name may not be declared or defined.
    pub fn is_taken(&self, name: &[u8]) -> bool
        ensures { result ≡ is_taken name.now self.now.force }
    {
        self.scope.is_taken(name)
    }

    /// Whether a name may not be defined as a sort.
    pub fn is_sort_taken(&self, name: &[u8]) -> bool
        ensures { result ≡ is_sort_taken name.now self.now.force }
    {
        self.scope.is_sort_taken(name)
    }

    /// How many levels are open.
    pub fn levels(&self) -> usize
        ensures { result ≡ length self.now.starts }
    {
        self.starts.len()
    }

    /// Whether a logic was set.
    pub fn has_logic(&self) -> bool
        ensures { result ≡ self.now.logic }
    {
        self.logic
    }

    /// Whether anything was ever declared, defined or asserted.
    pub fn has_begun(&self) -> bool
        ensures { result ≡ self.now.begun }
    {
        self.begun
    }

    /// Whether nothing was ever declared, defined or asserted, and no level opened.
    pub fn is_untouched(&self) -> bool
        ensures { result ≡ (not self.now.begun && not self.now.nested) }
    {
        !self.begun && !self.nested
    }

    /// Whether the last answer is sat.
    pub fn has_model(&self) -> bool
        ensures { result ≡ has_model (last_of (length self.now.constants) self.now.last) }
    {
        matches!(self.last, Some(Last::Sat { .. }))
    }

    /// Whether the last answer is unsat.
    pub fn has_core(&self) -> bool
        ensures { result ≡ has_core (last_of (length self.now.constants) self.now.last) }
    {
        matches!(self.last, Some(Last::Unsat))
    }

    /// Whether the last answer is unsat, to a check of assumptions.
    pub fn has_assumed_core(&self) -> bool
        ensures { result ≡ (has_core (last_of (length self.now.constants) self.now.last)
            && is_some self.now.terms) }
    {
        self.has_core() && self.terms.is_some()
    }

    /// A logic is set.
    pub fn set_logic(&mut self)
        ensures { self.new ≡ record self.old { logic = true } }
    {
        self.logic = true;
    }

    /// `:print-success` is set.
    pub fn set_success(&mut self, value: bool)
        ensures { self.new ≡ record self.old { success = value } }
    {
        self.success = value;
    }

    /// `:global-declarations` is set.
    pub fn set_global(&mut self, value: bool)
        ensures { self.new ≡ record self.old { global = value } }
    {
        self.global = value;
    }

    /// An option is set.
    pub fn add_option(&mut self, own: Chosen) -> Result<(), NoMemory>
        ensures ok { OnOk result (self.new ≡ with_option own self.old) }
        ensures err { OnErr result (self.new ≡ self.old) }
    {
        self.options.reserve(1)?;
        self.options.push_reserved(own);
        Ok(())
    }

    /// The last answer is forgotten, and this is assumed for the next, with the terms as they are
    /// written.
    pub fn assume(&mut self, ids: Vec<Id>, terms: Vec<Vec<u8>>)
        ensures { self.new ≡ record (forgotten self.old) { assumed = ids.items; terms = Some terms } }
    {
        self.last = None;
        self.assumed = ids;
        self.terms = Some(terms);
    }

    /// All is as where a script begins.
    pub fn restart(&mut self)
        ensures { self.new ≡ nothing }
    {
        self.clear_all();
        self.logic = false;
        self.begun = false;
        self.nested = false;
        self.success = false;
        self.global = false;
        self.options.clear();
        self.counts = None;
    }
}
