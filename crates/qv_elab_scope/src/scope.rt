//! The constants, definitions and sorts in force, by levels.

ghost use Rattle.std.specs.Prelude.{◌≡◌, ◌≤◌, ◌∷◌, ◌++◌, [], ◌↔◌, true, false, None};
ghost use Rattle.std.specs.Prelude.{IfOk, OnOk, OnErr};
ghost use Rattle.std.specs.Prelude.{length, replicate, take};
ghost use Rattle.std.specs.List.{AllByRecursion};
ghost use Rattle.std.specs.Option.{option_map};
ghost use Rattle.std.specs.Prelude.{is_some};
ghost use Rattle.qv_sorts.specs.Search.{operator_named};
ghost use Rattle.qv_elab_items.specs.Places.{place_in};
ghost use Rattle.qv_elab_defs.specs.Scopes.{sort_key};
ghost use Rattle.qv_elab_defs.specs.Sorts.{is_sort_name};
ghost use Rattle.qv_elab_scope.specs.Force.{is_reserved};

use qv_elab_items::NameTable;
use qv_elab_macros::Body;
use qv_sorts::{NameFault, op_named};
use qv_store::NoMemory;
use qv_words::Sort;
use std::alloc::Global;
use std::marker::Model;

/// What a name stands for.
#[derive(Drop)]
pub enum Kept {
    Constant { index: u64, sort: Sort },
    /// A definition, with the sorts of its parameters.
    Definition { sorts: Vec<Sort>, body: Body },
    /// A sort, where the name is one of the table of sorts.
    Synonym { sort: Sort },
}

/// Why a name isn't declared or defined.
#[derive(Clone, Copy)]
pub enum ScopeFault {
    /// It is in force already, or is an operator's.
    NameInUse,
    NoMemory,
}

// How many names and constants there were when a level was opened.
#[derive(Clone, Copy)]
struct Level {
    names: usize,
    constants: u64,
}

/// The constants, definitions and sorts in force. A level takes those that came in it with it.
#[derive(Drop)]
pub struct Scope {
    alloc: Global,
    names: NameTable,
    // What each name stands for, at its place.
    kept: Vec<Kept>,
    constants: u64,
    levels: Vec<Level>,
}

// Adds so many levels that are alike.
fn add_levels(levels: &mut Vec<Level>, level: Level, count: usize) -> Result<(), NoMemory>
    ensures ok { OnOk result (levels.new.items ≡ levels.old.items ++ replicate count level) }
    ensures err { OnErr result (levels.new.items ≡ levels.old.items) }
{
    levels.reserve(count)?;
    'levels: for _ in 0..count {
        levels.push_reserved(level);
    }
    Ok(())
}

impl Model for Scope {
    ghost use Rattle.qv_elab_scope.specs.Force.{Force, force_of, IsInForce};

    ghost Value = { Force };

    ghost view = { λ a. force_of a.names a.kept.items a.levels.items };

    ghost invariant = { λ a. IsInForce a.names a.kept.items a.constants a.levels.items };
}

// Whether a name is an operator's, or `distinct`, `true` or `false`.
fn is_reserved(name: &[u8]) -> bool
    ensures { result ≡ is_reserved name.now }
{
    is_operator(name)
        || name == b"distinct".as_slice()
        || name == b"true".as_slice()
        || name == b"false".as_slice()
}

// Whether a name is an operator's.
fn is_operator(name: &[u8]) -> bool
    ensures { result ≡ is_some (operator_named name.now) }
{
    match op_named(name, &[]) {
        Ok(_) => true,
        Err(fault) => fault != NameFault::Unknown,
    }
}

// Whether a name is that of sorts which aren't defined.
fn is_sort_name(name: &[u8]) -> bool
    ensures { result ≡ is_sort_name name.now }
{
    name == b"Bool".as_slice() || name == b"BitVec".as_slice()
}

// The name of a sort in the table: behind a bar, which no symbol has.
fn sort_key(alloc: Global, name: &[u8]) -> Result<Vec<u8>, NoMemory>
    ensures { IfOk result (λ key. key.items ≡ sort_key name.now) }
{
    let mut key = Vec::new(alloc);
    key.push(b'|')?;
    key.extend_from_slice(name)?;
    Ok(key)
}

impl Scope {
    ghost use Rattle.qv_elab_scope.specs.Force.{
      stands_for,
      is_taken,
      sort_for,
      is_sort_taken,
      constants_in,
      with_name,
      opened,
      closed,
      merged,
      shortened,
    };

    /// Nothing is in force.
    pub fn new(alloc: Global) -> Scope
        ensures { result ≡ record { names = []; kept = []; starts = [] } }
    {
        Scope {
            alloc,
            names: NameTable::new(alloc),
            kept: Vec::new(alloc),
            constants: 0,
            levels: Vec::new(alloc),
        }
    }

    /// What a name stands for.
    pub fn find(&self, name: &[u8]) -> Option<&Kept>
        ensures { option_map (λ kept. kept.now) result ≡ stands_for name.now self.now }
    {
        let place = self.names.find(name)?;
        self.kept.get(place)
    }

    /// How many names are in force.
    pub fn len(&self) -> usize
        ensures names { result ≡ length self.now.names }
        ensures kept { result ≡ length self.now.kept }
        ensures levels { AllByRecursion (λ n. n ≤ result) self.now.starts }
    {
        let _kept = self.kept.len();
        self.names.len()
    }

    /// How many levels are open.
    pub fn levels(&self) -> usize
        ensures { result ≡ length self.now.starts }
    {
        self.levels.len()
    }

    /// Whether a name can't be declared or defined: it is in force already, or is an operator's.
    pub fn is_taken(&self, name: &[u8]) -> bool
        ensures { result ≡ is_taken name.now self.now }
    {
        is_reserved(name) || self.names.find(name).is_some()
    }

    // What a name stands for in the table of sorts.
    fn find_key(&self, name: &[u8]) -> Option<&Kept>
        ensures { option_map (λ kept. kept.now) result
            ≡ stands_for (sort_key name.now) self.now }
    {
        let place = self.names.find_behind(b'|', name)?;
        self.kept.get(place)
    }

    /// The sort that a name stands for.
    pub fn find_sort(&self, name: &[u8]) -> Option<Sort>
        ensures { result ≡ sort_for name.now self.now }
    {
        match self.find_key(name) {
            Some(Kept::Synonym { sort }) => Some(*sort),
            Some(Kept::Constant { .. }) | Some(Kept::Definition { .. }) | None => None,
        }
    }

    /// Whether a name can't be defined as a sort: it is in force already, or is that of sorts.
    pub fn is_sort_taken(&self, name: &[u8]) -> bool
        ensures { result ≡ is_sort_taken name.now self.now }
    {
        self.names.find_behind(b'|', name).is_some() || is_sort_name(name)
    }

    // Adds a name that isn't in force.
    fn add(&mut self, name: &[u8], kept: Kept) -> Result<(), NoMemory>
        requires { place_in name.now self.old.names ≡ None }
        ensures ok { OnOk result (self.new ≡ with_name name.now kept self.old) }
        ensures err { OnErr result (self.new ≡ self.old) }
    {
        let constants = match kept {
            Kept::Constant { .. } => self.constants + 1,
            Kept::Definition { .. } => self.constants,
            Kept::Synonym { .. } => self.constants,
        };
        self.kept.reserve(1)?;
        self.names.push(self.alloc, name)?;
        self.kept.push_reserved(kept);
        self.constants = constants;
        Ok(())
    }

    /// Declares a constant, and answers its index: how many constants were in force before.
    pub fn declare(&mut self, name: &[u8], sort: Sort) -> Result<u64, ScopeFault>
        ensures index { IfOk result (λ index. index ≡ constants_in self.old.kept) }
        ensures ok { IfOk result (λ index.
            self.new ≡ with_name name.now (Kept.Constant index sort) self.old) }
        ensures err { OnErr result (self.new ≡ self.old) }
        ensures in_use { (result ≡ Err ScopeFault.NameInUse)
            ↔ (is_taken name.now self.old ≡ true) }
    {
        if self.is_taken(name) {
            return Err(ScopeFault::NameInUse);
        }
        let index = self.constants;
        match self.add(name, Kept::Constant { index, sort }) {
            Ok(()) => Ok(index),
            Err(_) => Err(ScopeFault::NoMemory),
        }
    }

    /// Defines a name by the sorts of its parameters and what its own reading gave.
    pub fn define(&mut self, name: &[u8], sorts: Vec<Sort>, body: Body) -> Result<(), ScopeFault>
        ensures ok { OnOk result (self.new
            ≡ with_name name.now (Kept.Definition sorts body) self.old) }
        ensures err { OnErr result (self.new ≡ self.old) }
        ensures in_use { (result ≡ Err ScopeFault.NameInUse)
            ↔ (is_taken name.now self.old ≡ true) }
    {
        if self.is_taken(name) {
            return Err(ScopeFault::NameInUse);
        }
        match self.add(name, Kept::Definition { sorts, body }) {
            Ok(()) => Ok(()),
            Err(_) => Err(ScopeFault::NoMemory),
        }
    }

    /// Defines a name as a sort, which isn't taken.
    pub fn define_sort(&mut self, name: &[u8], sort: Sort) -> Result<(), NoMemory>
        requires { is_sort_taken name.now self.old ≡ false }
        ensures ok { OnOk result (self.new
            ≡ with_name (sort_key name.now) (Kept.Synonym sort) self.old) }
        ensures err { OnErr result (self.new ≡ self.old) }
    {
        let key = sort_key(self.alloc, name)?;
        self.add(&key, Kept::Synonym { sort })
    }

    /// Opens so many levels.
    pub fn push(&mut self, count: usize) -> Result<(), NoMemory>
        ensures ok { OnOk result (self.new ≡ opened count self.old) }
        ensures err { OnErr result (self.new ≡ self.old) }
    {
        let level = Level {
            names: self.names.len(),
            constants: self.constants,
        };
        add_levels(&mut self.levels, level, count)?;
        Ok(())
    }

    /// Takes so many of the innermost levels away, with the constants and definitions that came in
    /// them.
    pub fn pop(&mut self, count: usize)
        requires { count ≤ length self.old.starts }
        ensures { self.new ≡ closed count self.old }
    {
        let left = self.levels.len() - count;
        let Some(level) = self.levels.get(left) else {
            return;
        };
        let names = level.names;
        self.constants = level.constants;
        self.names.truncate(names);
        self.kept.truncate(names);
        self.levels.truncate(left);
    }

    /// Takes the newest names away, which are no constants and came in no level of their own, so
    /// that this many are left.
    pub fn undefine(&mut self, left: usize)
        requires left { left ≤ length self.old.kept }
        requires constants { constants_in (take left self.old.kept) ≡ constants_in self.old.kept }
        requires levels { AllByRecursion (λ n. n ≤ left) self.old.starts }
        ensures { self.new ≡ shortened left self.old }
    {
        self.names.truncate(left);
        self.kept.truncate(left);
    }

    /// Merges so many of the innermost levels into the one around them, which takes the constants
    /// and definitions that came in them.
    pub fn merge(&mut self, count: usize)
        requires { count ≤ length self.old.starts }
        ensures { self.new ≡ merged count self.old }
    {
        let left = self.levels.len() - count;
        self.levels.truncate(left);
    }
}
