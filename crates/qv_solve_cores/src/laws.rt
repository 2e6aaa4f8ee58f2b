//! What is known of cores: each function's contract is a law.

ghost use Rattle.qv_solve_cores.specs.CoreLaws.{FewerAreTrue, FewerHaveNoMorePlaces};
ghost use Rattle.qv_solve_cores.specs.CoreLaws.{NoneCanBeSpared};

/// Fewer formulas have no more places.
pub fn fewer_have_no_more_places()
    ensures { FewerHaveNoMorePlaces }
{}

/// What holds together holds without some of it.
pub fn fewer_are_true()
    ensures { FewerAreTrue }
{}

/// Of a core no formula can be spared, where no trial was cut short.
pub fn none_can_be_spared()
    ensures { NoneCanBeSpared }
{}
