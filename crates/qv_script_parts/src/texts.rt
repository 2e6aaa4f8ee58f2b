//! What commands print that print a text of their own.

ghost use Rattle.std.specs.Prelude.{◌≡◌, IfOk, find, bytes_eq, string_bytes};
ghost use Rattle.std.specs.Fmt.{decimal};
ghost use Rattle.std.specs.Option.{option_map};
ghost use Rattle.qv_elab_defs.specs.Scopes.{found};
ghost use Rattle.qv_script_defs.specs.Texts.{line, unsupported, spent_text, infos, info_line};
ghost use Rattle.qv_script_defs.specs.Texts.{counts_text, statistics_text};
ghost use Rattle.qv_script_parts.specs.Meant.{meant_info, key_of};

use qv_script_defs::{Counts, SpentWord};
use qv_store::NoMemory;
use std::alloc::Global;

/// A line.
pub fn line(alloc: Global, text: &[u8]) -> Result<Vec<u8>, NoMemory>
    ensures { IfOk result (λ bytes. bytes.items ≡ line text.now) }
{
    let mut bytes = Vec::from_slice(alloc, text)?;
    bytes.push(b'\n')?;
    Ok(bytes)
}

/// What is printed for what isn't supported.
pub fn unsupported(alloc: Global) -> Result<Vec<u8>, NoMemory>
    ensures { IfOk result (λ bytes. bytes.items ≡ unsupported) }
{
    Vec::from_slice(alloc, b"unsupported\n")
}

/// What was spent.
pub fn spent_text(spent: SpentWord) -> &'static [u8]
    ensures { result.now ≡ spent_text spent }
{
    match spent {
        SpentWord::Conflicts => b"conflicts",
        SpentWord::Instances => b"instances",
        SpentWord::Variables => b"variables",
    }
}

/// What `get-info` knows.
#[derive(Clone, Copy)]
pub enum Info {
    Name,
    Version,
    Authors,
    ErrorBehavior,
    Levels,
    ReasonUnknown,
    AllStatistics,
}

static INFOS: [Info; 7] = [
    Info::Name,
    Info::Version,
    Info::Authors,
    Info::ErrorBehavior,
    Info::Levels,
    Info::ReasonUnknown,
    Info::AllStatistics,
];

// The key of what `get-info` knows.
fn key_of(info: Info) -> &'static [u8]
    ensures { result.now ≡ key_of info }
{
    match info {
        Info::Name => b":name",
        Info::Version => b":version",
        Info::Authors => b":authors",
        Info::ErrorBehavior => b":error-behavior",
        Info::Levels => b":assertion-stack-levels",
        Info::ReasonUnknown => b":reason-unknown",
        Info::AllStatistics => b":all-statistics",
    }
}

// The first of this key.
fn first_of_key(infos: &[Info], key: &[u8]) -> Option<Info>
    ensures { result ≡ find (λ i. bytes_eq (key_of i) key.now) infos.now }
{
    infos.iter().copied().find(|i| key_of(*i) == key)
}

/// What is known of a key.
pub fn info_named(key: &[u8]) -> Option<Info>
    ensures { option_map meant_info result ≡ found key.now infos }
{
    first_of_key(&INFOS, key)
}

/// The line of a key and what is known of it.
pub fn info_line(alloc: Global, key: &[u8], text: &[u8]) -> Result<Vec<u8>, NoMemory>
    ensures { IfOk result (λ bytes. bytes.items ≡ info_line key.now text.now) }
{
    let mut bytes = Vec::from_slice(alloc, b"(")?;
    bytes.extend_from_slice(key)?;
    bytes.extend_from_slice(b" ")?;
    bytes.extend_from_slice(text)?;
    bytes.extend_from_slice(b")\n")?;
    Ok(bytes)
}

/// The line of a key and a number of levels.
pub fn levels_line(alloc: Global, key: &[u8], levels: usize) -> Result<Vec<u8>, NoMemory>
    ensures { IfOk result (λ bytes. bytes.items ≡ info_line key.now (decimal levels)) }
{
    let text = format!(in alloc; "{levels}")?;
    info_line(alloc, key, text.as_bytes())
}

// What was counted.
fn counts_text(alloc: Global, counts: Counts) -> Result<String, NoMemory>
    ensures { IfOk result (λ text. string_bytes text ≡ counts_text counts) }
{
    let Counts {
        conflicts,
        instances,
        variables,
    } = counts;
    format!(in alloc; "(:conflicts {conflicts} :instances {instances} :variables {variables})")
}

/// What the last check was charged for, if there was one.
pub fn statistics_line(alloc: Global, counts: Option<Counts>) -> Result<Vec<u8>, NoMemory>
    ensures { IfOk result (λ bytes. bytes.items ≡ statistics_text counts) }
{
    let Some(counts) = counts else {
        return line(alloc, b"()");
    };
    let text = counts_text(alloc, counts)?;
    line(alloc, text.as_bytes())
}
