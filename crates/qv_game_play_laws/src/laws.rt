//! What is known of moves: each function's contract is a law.

ghost use Rattle.qv_game_play_laws.specs.PlayLaws.{QueriesAreOverPlaces, AnswersLieOutside};
ghost use Rattle.qv_game_play_laws.specs.PlayLaws.{LeftOutLieOutside, ForcedIsPlayed, OwnedIsPlayed};
ghost use Rattle.qv_game_play_laws.specs.PlayLaws.{ComplementIsPlayed};

/// What stands for a query list are formulas over the problem's places.
pub fn queries_are_over_places()
    ensures { QueriesAreOverPlaces }
{}

/// A point that makes these true lies outside all regions that the list is about.
pub fn answers_lie_outside()
    ensures { AnswersLieOutside }
{}

/// It does so too where regions that later ones cover were left out of the list.
pub fn left_out_lie_outside()
    ensures { LeftOutLieOutside }
{}

/// Where bits of a point leave its block's owner no values, the other player's entry may come.
pub fn forced_is_played()
    ensures { ForcedIsPlayed }
{}

/// Where the outside of the owner's regions leaves it none, so may the one of that region.
pub fn complement_is_played()
    ensures { ComplementIsPlayed }
{}

/// Where values of its block lead the owner to a later region of its own, its entry may come.
pub fn owned_is_played()
    ensures { OwnedIsPlayed }
{}
