//! What words name to be opened.

ghost use Rattle.std.specs.Prelude.{Some, map, string_bytes};
ghost use Rattle.qv_shell_args.specs.Call.{request_of};
ghost use Rattle.qv_shell.specs.Opening.{Opens, Plans};

use crate::opening::Plan;
use qv_shell_args::{Call, CallFault, call_of};
use std::alloc::Global;

/// What the program has to open for these words: the program's name is none of them.
pub fn plan(alloc: Global, words: &[String]) -> Plan
    ensures { Plans (map string_bytes words.now) result }
{
    match call_of(alloc, words) {
        Ok(call) => opened(call),
        Err(CallFault::Refused) => Plan::Refused,
        Err(CallFault::NoMemory) => Plan::NoMemory,
    }
}

// What a call has to open.
fn opened(call: Call) -> Plan
    ensures { Opens (Some (request_of call)) result }
{
    match call {
        Call::Solve { script, cert, .. } => Plan::Solve { script, cert },
        Call::Check { script, cert, .. } => Plan::Check { script, cert },
        Call::Lrat { cnf, proof } => Plan::Check {
            script: cnf,
            cert: proof,
        },
        Call::Trim {
            script,
            cert,
            to,
            ..
        } => Plan::Trim { script, cert, to },
        Call::Clauses { script, cert, .. } => Plan::Check { script, cert },
        Call::QSolve { file, cert, .. } => Plan::Solve { script: file, cert },
        Call::QCheck { file, cert, .. } => Plan::Check { script: file, cert },
        Call::Gen(_) | Call::Bench(_) | Call::Print(_) => Plan::Alone,
    }
}
