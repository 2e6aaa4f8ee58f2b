//! What makes an entry, and what is known of query lists and of points as assumptions: each
//! function's contract is a law.

ghost use Rattle.qv_game_entry_laws.specs.BuildingLaws.{LastRegionIsLinked, OneRegionIsLinked};
ghost use Rattle.qv_game_entry_laws.specs.BuildingLaws.{TakenMayCome, ForcedMayCome, FailedLeaveNone};
ghost use Rattle.qv_game_entry_laws.specs.BuildingLaws.{ComplementMayCome, NoModelLeavesNone};
ghost use Rattle.qv_game_entry_laws.specs.QueryLaws.{ClausesHaveLiterals, PlacesWithBitsOccur};
ghost use Rattle.qv_game_entry_laws.specs.QueryLaws.{FixedBitsGiveTheirValue, ModelsMakeTrue};
ghost use Rattle.qv_game_entry_laws.specs.PointLaws.{ModelsLeadOn, NamedRunsAssumeAll};

/// At the last level the one region behind an entry is the matrix or its negation.
pub fn last_region_is_linked()
    ensures { LastRegionIsLinked }
{}

/// At another level with one link it is the linked entry's.
pub fn one_region_is_linked()
    ensures { OneRegionIsLinked }
{}

/// An entry whose winner takes values for its block by chosen terms may come.
pub fn taken_may_come()
    ensures { TakenMayCome }
{}

/// So may one whose region fixes the bits that leave no values outside the linked regions.
pub fn forced_may_come()
    ensures { ForcedMayCome }
{}

/// Assumptions about bits that fail with the clauses of formulas leave no values that make these
/// true.
pub fn failed_leave_none()
    ensures { FailedLeaveNone }
{}

/// An entry whose region is what lies outside the owner's may come where that leaves no values
/// outside the linked regions.
pub fn complement_may_come()
    ensures { ComplementMayCome }
{}

/// It leaves none where its clauses, with those of the formulas behind them, have no model.
pub fn no_model_leaves_none()
    ensures { NoModelLeavesNone }
{}

/// The clauses of formulas have literals.
pub fn clauses_have_literals()
    ensures { ClausesHaveLiterals }
{}

/// A place whose variable has bits in a clause list occurs in one of its formulas.
pub fn places_with_bits_occur()
    ensures { PlacesWithBitsOccur }
{}

/// Bits that are all as they are in a number are the bits of that number.
pub fn fixed_bits_give_their_value()
    ensures { FixedBitsGiveTheirValue }
{}

/// Values that have the bits which an assignment gives to the places make all formulas true, where
/// the assignment makes the clauses true.
pub fn models_make_true()
    ensures { ModelsMakeTrue }
{}

/// Where the clauses of formulas and the assumptions about a point's bits are true, the point leads
/// on: with the values of the other places it makes all formulas true.
pub fn models_lead_on()
    ensures { ModelsLeadOn }
{}

/// The runs of a point's bits whose literals are named assume all literals that are: they lie
/// within the places' bits, are apart, and are of places that occur.
pub fn named_runs_assume_all()
    ensures { NamedRunsAssumeAll }
{}
