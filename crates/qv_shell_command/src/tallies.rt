//! How many checks have which answer.

ghost use Rattle.std.specs.Prelude.{◌≡◌, ◌<◌, ◌^◌};
ghost use Rattle.qv_script_stack.specs.Held.{answer_of};
ghost use Rattle.qv_shell_command.specs.Tallies.{counted, no_checks, IsSmall};

use qv_script::Last;

/// How many checks there were, and how many of them have each answer.
#[derive(Clone, Copy)]
pub struct Tally {
    pub checks: u64,
    pub sat: u64,
    pub unsat: u64,
    pub unknown: u64,
}

impl Tally {
    pub(crate) fn new() -> Tally
        ensures { result ≡ no_checks }
    {
        Tally {
            checks: 0,
            sat: 0,
            unsat: 0,
            unknown: 0,
        }
    }

    // One check more.
    pub(crate) fn count(&mut self, last: &Last)
        requires { IsSmall self.old }
        ensures { self.new ≡ counted (answer_of last.now) self.old }
    {
        self.checks += 1;
        match last {
            Last::Sat { .. } => self.sat += 1,
            Last::Unsat => self.unsat += 1,
            Last::Unknown { .. } => self.unknown += 1,
        }
    }
}
