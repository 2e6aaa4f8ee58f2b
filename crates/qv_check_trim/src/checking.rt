//! A certificate that is held is checked, and what is printed is held too.

ghost use Rattle.std.specs.Prelude.{◌≡◌, ◌<◌, ◌≤◌, Err, IfOk, length};
ghost use Rattle.qv_io.specs.Count.{Rose};
ghost use Rattle.qv_sexpr.specs.Limits.{read_limit};
ghost use Rattle.qv_check_defs.specs.Limits.{MetLimit};
ghost use Rattle.qv_check_trim.specs.Printing.{IsChecked};

use crate::held::Held;
use qv_check_script::{Ending, Halt, verify};
use qv_gen::TextSink;
use qv_io::Source;
use std::alloc::{AllocError, Global};

/// How a check ended, and what it prints.
#[derive(Drop)]
pub struct Checked {
    pub ended: Result<Ending, Halt>,
    pub printed: Vec<u8>,
}

/// Checks a certificate beside its script.
pub fn check_held<S: Source>(
    alloc: Global,
    places: u32,
    script: &mut S,
    cert: &[u8],
) -> Result<Checked, AllocError>
    requires { length cert.now < read_limit }
    ensures checked { IfOk result (λ checked. IsChecked places (S.left script.old) cert.now
        checked.ended checked.printed.items) }
    ensures read { IfOk result (λ checked. checked.ended ≡ Err Halt.Read →
        Rose (S.faults script.old) (S.faults script.new)) }
    ensures limit { IfOk result (λ checked. checked.ended ≡ Err Halt.ReadLimit →
        MetLimit S.read_gives (S.left script.old) script.old script.new) }
    ensures no_write { IfOk result (λ checked. checked.ended ≡ Err Halt.Write → ⊥) }
    ensures count { S.faults script.old ≤ S.faults script.new }
{
    let mut held = Held::new(cert);
    let mut sink = TextSink::new(alloc);
    let ended = verify(alloc, places, script, &mut held, &mut sink);
    if let Err(Halt::Write) = ended {
        // What is printed goes to memory.
        return Err(AllocError);
    }
    Ok(Checked {
        ended,
        printed: sink.into_bytes(),
    })
}
