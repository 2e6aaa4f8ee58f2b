//! The kinds of faults, and the line of one.

ghost use Rattle.std.specs.Prelude.{◌≡◌, IfOk};
ghost use Rattle.qv_script_defs.specs.Faults.{refusal, kind_text};

use qv_script::ScriptKind;
use std::alloc::{AllocError, Global};

/// The line of a fault of this name at a byte of the script, with its LF.
pub fn refusal(alloc: Global, place: u64, kind: &str) -> Result<Vec<u8>, AllocError>
    ensures { IfOk result (λ line. line.items ≡ refusal place kind.now) }
{
    let line = format!(in alloc; "(error \"at {place}: {kind}\")\n")?;
    Ok(line.into_bytes())
}

/// The name of a kind.
pub fn kind_text(kind: ScriptKind) -> &'static str
    ensures { result.now ≡ kind_text kind }
{
    match kind {
        ScriptKind::Command => "command",
        ScriptKind::Literal => "literal",
        ScriptKind::Form => "form",
        ScriptKind::NotSupported => "not supported",
        ScriptKind::NotSupportedYet => "not supported yet",
        ScriptKind::UnknownName => "unknown name",
        ScriptKind::Arity => "arity",
        ScriptKind::Sorts => "sorts",
        ScriptKind::Index => "index",
        ScriptKind::Width => "width",
        ScriptKind::RepeatedName => "repeated name",
        ScriptKind::DepthLimit => "depth limit",
        ScriptKind::NameInUse => "name in use",
        ScriptKind::Logic => "logic",
        ScriptKind::PopBelow => "pop below the first level",
        ScriptKind::LevelLimit => "level limit",
        ScriptKind::NoModel => "no model",
        ScriptKind::NoReason => "no reason",
        ScriptKind::Quantifier => "quantifier",
        ScriptKind::NoCore => "no core",
    }
}
