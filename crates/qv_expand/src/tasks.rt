//! What is still to be drawn.

ghost use Rattle.std.specs.Prelude.{◌≡◌, ◌++◌, OnOk, map, reverse};
ghost use Rattle.qv_expand.specs.Tasks.{task_below};

use qv_store::NoMemory;

/// The part below a line for an entry.
#[derive(Clone, Copy, Debug)]
pub(crate) struct Task {
    pub entry: u64,
    /// The line's number, or 0 for the root.
    pub parent: u64,
    /// How many places stand on the path down to it.
    pub depth: usize,
}

// Puts the parts for some entries below a line on the stack, the first on its top.
pub(crate) fn push_links(
    tasks: &mut Vec<Task>,
    links: &[u64],
    parent: u64,
    depth: usize,
) -> Result<(), NoMemory>
    ensures { OnOk result (tasks.new.items
        ≡ tasks.old.items ++ reverse (map (task_below parent depth) links.now)) }
{
    'links: for place in (0..links.len()).rev() {
        tasks.push(Task {
            entry: links[place],
            parent,
            depth,
        })?;
    }
    Ok(())
}
