//! What is known of the definitions: each function's contract is a law.

ghost use Rattle.qv_script_defs.specs.StateLaws.{StatesAreLawful, ChecksAreLawful};
ghost use Rattle.qv_script_defs.specs.StateLaws.{ValuesAreLawful};

/// In a state that commands lead to, the scope is one, no name in force stands twice, no more
/// levels are open than may be, and what is asserted are trees of the scope.
pub fn states_are_lawful()
    ensures { StatesAreLawful }
{}

/// What is checked are assertions in which constants of one index have one sort.
pub fn checks_are_lawful()
    ensures { ChecksAreLawful }
{}

/// The terms whose values are asked for are terms of the scope without quantifiers.
pub fn values_are_lawful()
    ensures { ValuesAreLawful }
{}
