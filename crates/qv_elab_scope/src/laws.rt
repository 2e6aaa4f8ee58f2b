//! What is known of what a scope keeps: each function's contract is a law.

ghost use Rattle.qv_elab_scope.specs.KeptLaws.{DefinitionsAreKept, ConstantsAreKept};
ghost use Rattle.qv_elab_scope.specs.KeptLaws.{SortsAreKept, TreesAreReadings};

/// A scope with one more definition, as `Scope::define` adds it, is kept where the definition's own
/// reading is.
pub fn definitions_are_kept()
    ensures { DefinitionsAreKept }
{}

/// A scope with one more constant, as `Scope::declare` adds it, is kept.
pub fn constants_are_kept()
    ensures { ConstantsAreKept }
{}

/// A scope with one more sort, as `Scope::define_sort` adds it, is kept.
pub fn sorts_are_kept()
    ensures { SortsAreKept }
{}

/// The tree of an expression is the own reading of a definition without parameters.
pub fn trees_are_readings()
    ensures { TreesAreReadings }
{}
