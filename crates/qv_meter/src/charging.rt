//! Charges to one record.

ghost use Rattle.std.specs.Prelude.{◌≡◌, ◌≤◌, ◌<◌, ◌+◌, ◌^◌, ◌↔◌, ℕ, Some, IsErr, OnOk, OnErr};
ghost use Rattle.std.specs.Prelude.{IsSomeAnd, slice_get, slice_index, length, set};
ghost use Rattle.qv_meter.specs.Views.{lane_of, record_of};
ghost use Rattle.qv_meter.specs.Records.{with_conflicts, one_more_instance, position_of};

use super::lanes::Lane;
use super::records::Record;
use qv_cnf::Spent;

fn raise(tallies: &mut [u64], at: usize)
    requires within { at < length tallies.old }
    requires few { slice_index tallies.old at < 2 ^ 60 }
    ensures { tallies.new ≡ set tallies.old at (slice_index tallies.old at + 1) }
{
    tallies[at] += 1;
}

/// One more conflict of this lane.
pub(crate) fn charge_conflict(newest: &mut Record, lane: Lane) -> Result<(), Spent>
    requires within { newest.old.conflicts ≤ newest.old.limits.conflicts }
    requires few { newest.old.limits.conflicts < 2 ^ 60 }
    requires kept { IsSomeAnd newest.old.problem
        (λ k. (position_of (lane_of lane) < length k.tallies.items)
        × (slice_index k.tallies.items (position_of (lane_of lane)) ≤ newest.old.conflicts)) }
    ensures spent { IsErr result ↔ (newest.old.conflicts ≡ newest.old.limits.conflicts) }
    ensures err { OnErr result (newest.new ≡ newest.old) }
    ensures ok { OnOk result
        (record_of newest.new
        ≡ with_conflicts (lane_of lane) (λ n. n + 1) (record_of newest.old)) }
{
    if newest.conflicts == newest.limits.conflicts {
        return Err(Spent);
    }
    newest.conflicts += 1;
    if let Some(kept) = &mut newest.problem {
        raise(&mut kept.tallies, lane.position() as usize);
    }
    Ok(())
}

/// One more instance.
pub(crate) fn charge_instance(newest: &mut Record) -> Result<(), Spent>
    requires within { newest.old.instances ≤ newest.old.limits.instances }
    requires few { newest.old.limits.instances < 2 ^ 60 }
    ensures spent { IsErr result ↔ (newest.old.instances ≡ newest.old.limits.instances) }
    ensures err { OnErr result (newest.new ≡ newest.old) }
    ensures ok { OnOk result
        (record_of newest.new ≡ one_more_instance (record_of newest.old)) }
{
    if newest.instances == newest.limits.instances {
        return Err(Spent);
    }
    newest.instances += 1;
    Ok(())
}
