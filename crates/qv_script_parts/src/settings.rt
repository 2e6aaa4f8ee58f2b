//! The options of `set-option` by their names, and their defaults.

ghost use Rattle.std.specs.Prelude.{◌≡◌, IfOk, find, bytes_eq};
ghost use Rattle.std.specs.Option.{option_map};
ghost use Rattle.qv_elab_defs.specs.Scopes.{found};
ghost use Rattle.qv_script_defs.specs.Settings.{has_dot, settings, setting_of};
ghost use Rattle.qv_script_defs.specs.Settings.{default_of, value_line};
ghost use Rattle.qv_script_parts.specs.Options.{meant_key, key_of};

use crate::texts::{line, unsupported};
use qv_script_defs::Setting;
use qv_store::NoMemory;
use std::alloc::Global;

// An option that is known by its name, which has no dot.
#[derive(Clone, Copy)]
pub(crate) enum Key {
    PrintSuccess,
    GlobalDeclarations,
    ProduceModels,
    ProduceUnsatCores,
    ProduceUnsatAssumptions,
    ProduceAssignments,
    ProduceAssertions,
    InteractiveMode,
    Verbosity,
    RandomSeed,
    ReproducibleResourceLimit,
    RegularOutputChannel,
    DiagnosticOutputChannel,
    AutoConfig,
    MemoryMaxSize,
    Model,
    ModelValidate,
    Proof,
    Rlimit,
    Smtlib2Compliant,
    Stats,
    Timeout,
    Trace,
    TypeCheck,
    UnsatCore,
    Verbose,
    Warning,
    WellSortedCheck,
    BvSolver,
    FmfBound,
    Incremental,
    RlimitPer,
    SatSolver,
    Seed,
    StringsExp,
    TimeLimitPer,
    Tlimit,
    TlimitPer,
    YicesEfMaxIters,
}

static KEYS: [Key; 39] = [
    Key::PrintSuccess,
    Key::GlobalDeclarations,
    Key::ProduceModels,
    Key::ProduceUnsatCores,
    Key::ProduceUnsatAssumptions,
    Key::ProduceAssignments,
    Key::ProduceAssertions,
    Key::InteractiveMode,
    Key::Verbosity,
    Key::RandomSeed,
    Key::ReproducibleResourceLimit,
    Key::RegularOutputChannel,
    Key::DiagnosticOutputChannel,
    Key::AutoConfig,
    Key::MemoryMaxSize,
    Key::Model,
    Key::ModelValidate,
    Key::Proof,
    Key::Rlimit,
    Key::Smtlib2Compliant,
    Key::Stats,
    Key::Timeout,
    Key::Trace,
    Key::TypeCheck,
    Key::UnsatCore,
    Key::Verbose,
    Key::Warning,
    Key::WellSortedCheck,
    Key::BvSolver,
    Key::FmfBound,
    Key::Incremental,
    Key::RlimitPer,
    Key::SatSolver,
    Key::Seed,
    Key::StringsExp,
    Key::TimeLimitPer,
    Key::Tlimit,
    Key::TlimitPer,
    Key::YicesEfMaxIters,
];

// The name of an option.
fn key_of(key: Key) -> &'static [u8]
    ensures { result.now ≡ key_of key }
{
    match key {
        Key::PrintSuccess => b":print-success",
        Key::GlobalDeclarations => b":global-declarations",
        Key::ProduceModels => b":produce-models",
        Key::ProduceUnsatCores => b":produce-unsat-cores",
        Key::ProduceUnsatAssumptions => b":produce-unsat-assumptions",
        Key::ProduceAssignments => b":produce-assignments",
        Key::ProduceAssertions => b":produce-assertions",
        Key::InteractiveMode => b":interactive-mode",
        Key::Verbosity => b":verbosity",
        Key::RandomSeed => b":random-seed",
        Key::ReproducibleResourceLimit => b":reproducible-resource-limit",
        Key::RegularOutputChannel => b":regular-output-channel",
        Key::DiagnosticOutputChannel => b":diagnostic-output-channel",
        Key::AutoConfig => b":auto_config",
        Key::MemoryMaxSize => b":memory_max_size",
        Key::Model => b":model",
        Key::ModelValidate => b":model_validate",
        Key::Proof => b":proof",
        Key::Rlimit => b":rlimit",
        Key::Smtlib2Compliant => b":smtlib2_compliant",
        Key::Stats => b":stats",
        Key::Timeout => b":timeout",
        Key::Trace => b":trace",
        Key::TypeCheck => b":type_check",
        Key::UnsatCore => b":unsat_core",
        Key::Verbose => b":verbose",
        Key::Warning => b":warning",
        Key::WellSortedCheck => b":well_sorted_check",
        Key::BvSolver => b":bv-solver",
        Key::FmfBound => b":fmf-bound",
        Key::Incremental => b":incremental",
        Key::RlimitPer => b":rlimit-per",
        Key::SatSolver => b":sat-solver",
        Key::Seed => b":seed",
        Key::StringsExp => b":strings-exp",
        Key::TimeLimitPer => b":time-limit-per",
        Key::Tlimit => b":tlimit",
        Key::TlimitPer => b":tlimit-per",
        Key::YicesEfMaxIters => b":yices-ef-max-iters",
    }
}

// What an option takes.
fn meant(key: Key) -> Setting
    ensures { result ≡ meant_key key }
{
    match key {
        Key::PrintSuccess => Setting::Success,
        Key::GlobalDeclarations => Setting::Global,
        Key::ProduceModels
        | Key::ProduceUnsatCores
        | Key::ProduceUnsatAssumptions
        | Key::ProduceAssignments
        | Key::ProduceAssertions
        | Key::InteractiveMode => Setting::Truth,
        Key::Verbosity | Key::RandomSeed | Key::ReproducibleResourceLimit => Setting::Numeral,
        Key::RegularOutputChannel => Setting::Answers,
        Key::DiagnosticOutputChannel => Setting::Diagnostics,
        _ => Setting::Foreign,
    }
}

// Whether a dot stands in a name.
fn has_dot(key: &[u8]) -> bool
    ensures { result ≡ has_dot key.now }
{
    key.contains(&b'.')
}

// The first of this name.
fn first_named(keys: &[Key], name: &[u8]) -> Option<Key>
    ensures { result ≡ find (λ k. bytes_eq (key_of k) name.now) keys.now }
{
    keys.iter().copied().find(|k| key_of(*k) == name)
}

// What the option of this name takes, if it is known by it.
fn known(name: &[u8]) -> Option<Setting>
    ensures { result ≡ found name.now settings }
{
    match first_named(&KEYS, name) {
        Some(key) => Some(meant(key)),
        None => None,
    }
}

/// What the option of this name takes, if it is one.
pub fn setting_named(key: &[u8]) -> Option<Setting>
    ensures { result ≡ setting_of key.now }
{
    if has_dot(key) {
        return Some(Setting::Foreign);
    }
    known(key)
}

/// What `get-option` prints for an option that isn't set.
pub fn default_line(alloc: Global, setting: Option<Setting>) -> Result<Vec<u8>, NoMemory>
    ensures { IfOk result (λ bytes. bytes.items ≡ value_line (default_of setting)) }
{
    let Some(setting) = setting else {
        return unsupported(alloc);
    };
    match setting {
        Setting::Success | Setting::Global | Setting::Truth => line(alloc, b"false"),
        Setting::Numeral => line(alloc, b"0"),
        Setting::Answers => line(alloc, b"\"stdout\""),
        Setting::Diagnostics => line(alloc, b"\"stderr\""),
        Setting::Foreign => unsupported(alloc),
    }
}
