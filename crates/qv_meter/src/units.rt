//! What is charged for, as it is passed to a meter.

use qv_entries::{Entries, Entry};

/// An instance: an entry behind others, or a line of their tree by its path.
#[derive(Drop)]
pub enum InstanceUnit<'e, 'u> {
    Entry {
        entries: &'e Entries,
        entry: &'u Entry,
    },
    TreeLine {
        entries: &'e Entries,
        path: &'u [u64],
    },
}
