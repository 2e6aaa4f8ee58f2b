//! Which file is which, as the host knows it.
use std::fs::Metadata;
use std::os::unix::fs::{FileTypeExt, MetadataExt};

/// A file, by the device that has it and its number there, whatever paths and links lead to it.
#[derive(Clone, Copy)]
pub struct Identity {
    device: u64,
    number: u64,
    // It is a device of characters itself: opening one empties nothing, and what is written to it
    // doesn't come back.
    is_device: bool,
    // It is a terminal on which answers are shown.
    is_screen: bool,
}

impl Identity {
    ghost use Rattle.std.specs.Prelude.{◌≡◌, ◌↔◌, IsTrue};
    ghost use Rattle.qv_shell_host.specs.Files.{IsWrittenBy};

    /// That of the file of which this is known.
    pub(crate) fn of(metadata: &Metadata, is_screen: bool) -> Identity
        ensures { result.is_screen ≡ is_screen }
    {
        Identity {
            device: metadata.dev(),
            number: metadata.ino(),
            is_device: metadata.file_type().is_char_device(),
            is_screen,
        }
    }

    /// Whether a certificate in the other file would be written into this one.
    pub(crate) fn is_written_by(self, cert: Identity) -> bool
        ensures { IsTrue result ↔ IsWrittenBy self cert }
    {
        self.device == cert.device
            && self.number == cert.number
            && (!cert.is_device || self.is_screen)
    }
}
