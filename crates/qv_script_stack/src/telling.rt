//! What `get-info` and `get-option` print.

ghost use Rattle.std.specs.Prelude.{if◌then◌else◌, ◌≡◌, ◌^◌, List, Some, IfOk, bytes_eq, min};
ghost use Rattle.std.specs.Option.{option_map};
ghost use Rattle.qv_words.specs.Tree.{Tree};
ghost use Rattle.qv_elab_defs.specs.Scopes.{found};
ghost use Rattle.qv_script_defs.specs.State.{State};
ghost use Rattle.qv_script_defs.specs.Texts.{infos, info_text, reason_text};
ghost use Rattle.qv_script_defs.specs.Settings.{limit_of, option_text};
ghost use Rattle.qv_script_parts.specs.Parted.{TellsText};
ghost use Rattle.qv_script_stack.specs.Held.{IsScriptIn, chosen_of};
ghost use Rattle.qv_script_stack.specs.Steps.{RunsOut};

use crate::held::{Chosen, Last};
use crate::stack::Stack;
use qv_script_defs::{ScriptFault, ScriptKind, fault_at};
use qv_script_parts::{
    Info, default_line, info_line, info_named, levels_line, limit_in, line, setting_named,
    spent_text, statistics_line, unsupported,
};
use qv_store::NoMemory;

// The value that an option was set to last.
fn last_chosen<'a>(options: &'a [Chosen], key: &[u8]) -> Option<&'a [u8]>
    ensures { option_map (λ value. value.now) result ≡ found key.now (chosen_of options.now) }
{
    let mut value = None;
    'options: for own in options {
        value = value_or(own, key, value);
    }
    value
}

// The value of an option, if it is this one, or the value before it.
fn value_or<'a>(own: &'a Chosen, key: &[u8], before: Option<&'a [u8]>) -> Option<&'a [u8]>
    ensures { option_map (λ value. value.now) result ≡ (if bytes_eq own.now.key.items key.now
        then Some own.now.value.items else option_map (λ value. value.now) before.entry) }
{
    if own.key.as_slice() == key {
        Some(own.value.as_slice())
    } else {
        before
    }
}

impl Stack {
    /// How many conflicts each check may have by `:reproducible-resource-limit`, or 2^60 where that
    /// is less; 0 where it is free.
    pub fn limit(&self) -> u64
        ensures { (trees : List Tree) (s : State) → IsScriptIn trees self.now s →
            result ≡ min (limit_of s) (2 ^ 60) }
    {
        match last_chosen(&self.options, b":reproducible-resource-limit") {
            Some(digits) => limit_in(digits),
            None => 0,
        }
    }

    /// What `get-option` prints for a key.
    pub fn option_text(&self, key: &[u8]) -> Result<Vec<u8>, NoMemory>
        ensures { IfOk result (λ text. (trees : List Tree) (s : State) → IsScriptIn trees self.now s →
            text.items ≡ option_text s key.now) }
    {
        let Some(value) = last_chosen(&self.options, key) else {
            let text = default_line(self.alloc, setting_named(key))?;
            return Ok(text);
        };
        let text = line(self.alloc, value)?;
        Ok(text)
    }

    /// What `get-info` prints for a key.
    pub fn info_text(&self, place: u64, key: &[u8]) -> Result<Vec<u8>, ScriptFault>
        ensures text { (trees : List Tree) (s : State) → IsScriptIn trees self.now s →
            TellsText (info_text place s key.now (found key.now infos)) result }
        ensures short { (trees : List Tree) (s : State) → IsScriptIn trees self.now s →
            RunsOut (info_text place s key.now (found key.now infos)) result }
    {
        let Some(info) = info_named(key) else {
            return Ok(unsupported(self.alloc)?);
        };
        match info {
            Info::Name | Info::Authors => Ok(info_line(self.alloc, key, b"\"qbv\"")?),
            Info::Version => Ok(info_line(self.alloc, key, b"\"1\"")?),
            Info::ErrorBehavior => Ok(info_line(self.alloc, key, b"immediate-exit")?),
            Info::Levels => Ok(levels_line(self.alloc, key, self.starts.len())?),
            Info::ReasonUnknown => self.reason_text(place),
            Info::AllStatistics => Ok(statistics_line(self.alloc, self.counts)?),
        }
    }

    // What was spent at the last check, if that is why it has no answer.
    fn reason_text(&self, place: u64) -> Result<Vec<u8>, ScriptFault>
        ensures text { (trees : List Tree) (s : State) → IsScriptIn trees self.now s →
            TellsText (reason_text place s.last) result }
        ensures short { (trees : List Tree) (s : State) → IsScriptIn trees self.now s →
            RunsOut (reason_text place s.last) result }
    {
        match &self.last {
            Some(Last::Unknown { spent }) => Ok(info_line(
                self.alloc,
                b":reason-unknown",
                spent_text(*spent),
            )?),
            _ => Err(fault_at(place, ScriptKind::NoReason)),
        }
    }
}
