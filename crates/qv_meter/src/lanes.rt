//! What conflicts are charged to.

ghost use Rattle.std.specs.Prelude.{◌≡◌, ◌<◌, ◌^◌};
ghost use Rattle.qv_meter.specs.Views.{lane_of};
ghost use Rattle.qv_meter.specs.Records.{position_of};

use qv_store::Quant;

/// The queries about a player's regions at a level, or the final list.
#[derive(Clone, Copy, Debug, PartialEq, Eq)]
pub enum Lane {
    Query { winner: Quant, level: u64 },
    Final,
}

impl Lane {
    /// Where its tally stands.
    pub(crate) fn position(self) -> u64
        requires { position_of (lane_of self) < 2 ^ 63 }
        ensures { result ≡ position_of (lane_of self) }
    {
        match self {
            Lane::Query {
                winner: Quant::Exists,
                level,
            } => (2 * level).saturating_sub(3),
            Lane::Query {
                winner: Quant::Forall,
                level,
            } => (2 * level).saturating_sub(2),
            Lane::Final => 0,
        }
    }
}
