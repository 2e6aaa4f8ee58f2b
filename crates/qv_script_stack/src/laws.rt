//! What is known of what a script holds: each function's contract is a law.

ghost use Rattle.qv_script_stack.specs.HeldLaws.{NothingIsOpening, ConstantsAreHeld, OpenedLevelsAreHeld};
ghost use Rattle.qv_script_stack.specs.HeldLaws.{SortsAreHeld, AssertionsAreHeld, ScriptsStayHeld};
ghost use Rattle.qv_script_stack.specs.HeldLaws.{ClosedLevelsAreHeld, EmptiedScriptsAreHeld};

/// Where nothing is held, a script is where it begins.
pub fn nothing_is_opening()
    ensures { NothingIsOpening }
{}

/// What is held behind the declaration of a constant is the state behind it.
pub fn constants_are_held()
    ensures { ConstantsAreHeld }
{}

/// What is held behind the definition of a sort is the state behind it.
pub fn sorts_are_held()
    ensures { SortsAreHeld }
{}

/// What is held behind an assertion without a name is the state behind it.
pub fn assertions_are_held()
    ensures { AssertionsAreHeld }
{}

/// What is held in a store is held as the store grows.
pub fn scripts_stay_held()
    ensures { ScriptsStayHeld }
{}

/// What is held where levels are opened is the state behind `push`.
pub fn opened_levels_are_held()
    ensures { OpenedLevelsAreHeld }
{}

/// What is held where levels are closed is the state behind `pop`.
pub fn closed_levels_are_held()
    ensures { ClosedLevelsAreHeld }
{}

/// What is held where all is removed is the state behind `reset-assertions`.
pub fn emptied_scripts_are_held()
    ensures { EmptiedScriptsAreHeld }
{}
