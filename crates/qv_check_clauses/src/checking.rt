//! A certificate and its script that are held are checked.

ghost use Rattle.std.specs.Prelude.{◌<◌, IfOk, length};
ghost use Rattle.qv_sexpr.specs.Limits.{read_limit};
ghost use Rattle.qv_check_trim.specs.Printing.{IsOutcome};

use qv_check_script::Ending;
use qv_check_trim::{Held, check_held};
use std::alloc::{AllocError, Global};

/// How a check ended that came to its end, and what it printed.
#[derive(Drop)]
pub(crate) struct Told {
    pub(crate) ending: Ending,
    pub(crate) printed: Vec<u8>,
}

/// Checks a certificate beside its script.
pub(crate) fn check(
    alloc: Global,
    places: u32,
    script: &[u8],
    cert: &[u8],
) -> Result<Told, AllocError>
    requires { length cert.now < read_limit }
    ensures { IfOk result (λ told. IsOutcome places script.now cert.now told.ending
        told.printed.items) }
{
    let mut script = Held::new(script);
    let checked = check_held(alloc, places, &mut script, cert)?;
    match checked.ended {
        Ok(ending) => Ok(Told {
            ending,
            printed: checked.printed,
        }),
        // What is held can be read, so that only memory can be wanting.
        Err(_) => Err(AllocError),
    }
}
