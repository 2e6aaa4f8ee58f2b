//! What is known of the definitions: each function's contract is a law.

ghost use Rattle.qv_elab_defs.specs.SortLaws.{SortsAreLawful, ScopedSortsAreLawful};
ghost use Rattle.qv_elab_defs.specs.SortLaws.{SymbolsAreNoSortKeys};
ghost use Rattle.qv_elab_defs.specs.TreeLaws.{ElaboratedAreTrees};
ghost use Rattle.qv_elab_defs.specs.UseLaws.{DefinitionsArePutIn, UsesFailByDepth};

/// A sort that is read is lawful.
pub fn sorts_are_lawful()
    ensures { SortsAreLawful }
{}

/// A sort that is read in a scope is lawful.
pub fn scoped_sorts_are_lawful()
    ensures { ScopedSortsAreLawful }
{}

/// No symbol is a name of the table of sorts.
pub fn symbols_are_no_sort_keys()
    ensures { SymbolsAreNoSortKeys }
{}

/// The tree of an expression is sorted, closed and not too deep, and its constants are those of the
/// scope.
pub fn elaborated_are_trees()
    ensures { ElaboratedAreTrees }
{}

/// A use of a definition gives the tree of the definition's own reading, with the arguments put in
/// for the parameters and the other levels moved to the depth of the use.
pub fn definitions_are_put_in()
    ensures { DefinitionsArePutIn }
{}

/// A use of a definition has no fault but that of depth, and has it exactly where some argument is
/// too deep at the depth at which its parameter stands.
pub fn uses_fail_by_depth()
    ensures { UsesFailByDepth }
{}
