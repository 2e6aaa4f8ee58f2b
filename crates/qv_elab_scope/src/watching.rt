//! The arguments of uses are watched.

ghost use Rattle.std.specs.Prelude.{◌≡◌, ◌++◌, OnOk};
ghost use Rattle.qv_elab_scope.specs.Watching.{watched_args};

use qv_elab_macros::Watched;
use qv_store::{Id, NoMemory};

// The arguments of a use are watched, each at the depth of its parameter.
pub(crate) fn watch_args(
    depths: &[u64],
    args: &[Id],
    watched: &mut Vec<Watched>,
) -> Result<(), NoMemory>
    ensures { OnOk result (watched.new.items
        ≡ watched.old.items ++ watched_args args.now depths.now) }
{
    'each: for (place, arg) in args.iter().enumerate() {
        let Some(depth) = depths.get(place) else {
            return Ok(());
        };
        watched.push(Watched {
            id: *arg,
            depth: *depth,
        })?;
    }
    Ok(())
}
