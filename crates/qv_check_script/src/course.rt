//! Where a check stands between two commands.

ghost use Rattle.std.specs.Prelude.{◌≡◌};
ghost use Rattle.qv_script_defs.specs.State.{opening};
ghost use Rattle.qv_check_script.specs.Turns.{Stands};

use qv_script::Script;
use qv_store::Store;
use std::alloc::Global;

/// What a script has made so far, in its store, and how many sections were accepted.
#[derive(Drop)]
pub struct Course {
    pub store: Store,
    pub script: Script,
    pub checks: u64,
}

impl Course {
    /// Nothing was done.
    pub fn new(alloc: Global) -> Course
        ensures stands { Stands result opening }
        ensures checks { result.checks ≡ 0 }
    {
        Course {
            store: Store::new(alloc),
            script: Script::new(alloc),
            checks: 0,
        }
    }
}
