//! How deep trees may be.

ghost use Rattle.std.specs.Prelude.{◌≡◌, ◌+◌};
ghost use Rattle.qv_elab_defs.specs.Limit.{saturated};

/// The greatest depth of a tree.
pub const DEPTH_LIMIT: u64 = 10_000;

/// The depth of a tree above one of this depth.
pub fn above(depth: u64) -> u64
    ensures { result ≡ saturated (1 + depth) }
{
    depth.saturating_add(1)
}
