//! What is known of units and of meters: each function's contract is a law.

ghost use Rattle.qv_meter.specs.UnitLaws.{PlayedByOneMore, PlayedIsLinkedAndFresh, QueriesGrow};
ghost use Rattle.qv_meter.specs.UnitLaws.{ForcedIsFollowed};
ghost use Rattle.qv_meter.specs.UnitLaws.{NoQueriesWithoutPlaces, AllLinksDeny};
ghost use Rattle.qv_meter.specs.RecordLaws.{LanesHavePositions, CallsKeepMeters};
ghost use Rattle.qv_meter.specs.RecordLaws.{ConflictsAreCounted, OnlyConflictsDiffer};

/// A list with one more entry is linked and fresh exactly where the list is and the entry is a
/// fresh one behind it.
pub fn played_by_one_more()
    ensures { PlayedByOneMore }
{}

/// What play leaves is linked, and each of its entries is fresh.
pub fn played_is_linked_and_fresh()
    ensures { PlayedIsLinkedAndFresh }
{}

/// A forced entry is followed by its winner's at the level above, which is linked to it.
pub fn forced_is_followed()
    ensures { ForcedIsFollowed }
{}

/// One more entry puts its negation behind a query list, or nothing.
pub fn queries_grow()
    ensures { QueriesGrow }
{}

/// Without places there are no queries.
pub fn no_queries_without_places()
    ensures { NoQueriesWithoutPlaces }
{}

/// What a block's owner was asked denies the regions of all entries at the next level.
pub fn all_links_deny()
    ensures { AllLinksDeny }
{}

/// Each lane of a problem has a tally of its own.
pub fn lanes_have_positions()
    ensures { LanesHavePositions }
{}

/// What holds of each meter still holds after each call.
pub fn calls_keep_meters()
    ensures { CallsKeepMeters }
{}

/// A conflict is counted, changes nothing else, and leaves what the next one may follow.
pub fn conflicts_are_counted()
    ensures { ConflictsAreCounted }
{}

/// After some conflicts nothing differs but their count and the present lane's tally.
pub fn only_conflicts_differ()
    ensures { OnlyConflictsDiffer }
{}
