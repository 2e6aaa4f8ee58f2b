//! Fixed texts.

ghost use Rattle.std.specs.Prelude.{◌≡◌, IfOk};
ghost use Rattle.qv_script_stack.specs.Held.{answer_of};
ghost use Rattle.qv_script_defs.specs.Texts.{success};
ghost use Rattle.qv_script_transcript.specs.Lawful.{answer_line};

use qv_script::{Last, Script};
use std::alloc::{AllocError, Global};

// The line of an answer.
pub(crate) fn answer_line(last: &Last) -> &'static [u8]
    ensures { result.now ≡ answer_line (answer_of last.now) }
{
    match last {
        Last::Sat { .. } => b"sat\n",
        Last::Unsat => b"unsat\n",
        Last::Unknown { .. } => b"unknown\n",
    }
}

// What a command prints that prints nothing else.
pub(crate) fn success(alloc: Global, script: &Script) -> Result<Vec<u8>, AllocError>
    ensures { IfOk result (λ text. text.items ≡ success script.now.success) }
{
    if script.success() {
        Vec::from_slice(alloc, b"success\n")
    } else {
        Ok(Vec::new(alloc))
    }
}
