//! The commands by their names.

ghost use Rattle.std.specs.Prelude.{◌≡◌, find, bytes_eq};
ghost use Rattle.std.specs.Option.{option_map};
ghost use Rattle.qv_elab_defs.specs.Scopes.{found};
ghost use Rattle.qv_script_defs.specs.Commands.{commands};
ghost use Rattle.qv_script_parts.specs.Meant.{meant, name_of};

/// A command that is known by its name.
#[derive(Clone, Copy)]
pub enum Command {
    SetLogic,
    SetOption,
    SetInfo,
    DeclareConst,
    DeclareFun,
    DefineFun,
    DefineConst,
    DefineSort,
    Assert,
    Push,
    Pop,
    CheckSat,
    CheckSatAssuming,
    GetValue,
    GetModel,
    GetInfo,
    GetOption,
    Echo,
    ResetAssertions,
    Reset,
    Exit,
    DefineFunRec,
    DefineFunsRec,
    DeclareSort,
    DeclareSortParameter,
    DeclareDatatype,
    DeclareDatatypes,
    GetProof,
    GetAssertions,
    GetAssignment,
    GetUnsatAssumptions,
    GetUnsatCore,
}

static COMMANDS: [Command; 32] = [
    Command::SetLogic,
    Command::SetOption,
    Command::SetInfo,
    Command::DeclareConst,
    Command::DeclareFun,
    Command::DefineFun,
    Command::DefineConst,
    Command::DefineSort,
    Command::Assert,
    Command::Push,
    Command::Pop,
    Command::CheckSat,
    Command::CheckSatAssuming,
    Command::GetValue,
    Command::GetModel,
    Command::GetInfo,
    Command::GetOption,
    Command::Echo,
    Command::ResetAssertions,
    Command::Reset,
    Command::Exit,
    Command::DefineFunRec,
    Command::DefineFunsRec,
    Command::DeclareSort,
    Command::DeclareSortParameter,
    Command::DeclareDatatype,
    Command::DeclareDatatypes,
    Command::GetProof,
    Command::GetAssertions,
    Command::GetAssignment,
    Command::GetUnsatAssumptions,
    Command::GetUnsatCore,
];

// The name of a command.
fn name_of(command: Command) -> &'static [u8]
    ensures { result.now ≡ name_of command }
{
    match command {
        Command::SetLogic => b"set-logic",
        Command::SetOption => b"set-option",
        Command::SetInfo => b"set-info",
        Command::DeclareConst => b"declare-const",
        Command::DeclareFun => b"declare-fun",
        Command::DefineFun => b"define-fun",
        Command::DefineConst => b"define-const",
        Command::DefineSort => b"define-sort",
        Command::Assert => b"assert",
        Command::Push => b"push",
        Command::Pop => b"pop",
        Command::CheckSat => b"check-sat",
        Command::CheckSatAssuming => b"check-sat-assuming",
        Command::GetValue => b"get-value",
        Command::GetModel => b"get-model",
        Command::GetInfo => b"get-info",
        Command::Echo => b"echo",
        Command::ResetAssertions => b"reset-assertions",
        Command::Reset => b"reset",
        Command::Exit => b"exit",
        Command::DefineFunRec => b"define-fun-rec",
        Command::DefineFunsRec => b"define-funs-rec",
        Command::DeclareSort => b"declare-sort",
        Command::DeclareSortParameter => b"declare-sort-parameter",
        Command::DeclareDatatype => b"declare-datatype",
        Command::DeclareDatatypes => b"declare-datatypes",
        Command::GetProof => b"get-proof",
        Command::GetAssertions => b"get-assertions",
        Command::GetAssignment => b"get-assignment",
        Command::GetOption => b"get-option",
        Command::GetUnsatAssumptions => b"get-unsat-assumptions",
        Command::GetUnsatCore => b"get-unsat-core",
    }
}

// The first of this name.
fn first_named(commands: &[Command], name: &[u8]) -> Option<Command>
    ensures { result ≡ find (λ c. bytes_eq (name_of c) name.now) commands.now }
{
    commands.iter().copied().find(|c| name_of(*c) == name)
}

/// The command of this name.
pub fn command_named(name: &[u8]) -> Option<Command>
    ensures { option_map meant result ≡ found name.now commands }
{
    first_named(&COMMANDS, name)
}
