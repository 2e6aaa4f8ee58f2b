//! The reader.

ghost use Rattle.std.specs.Prelude.{◌≡◌, ◌≤◌, ◌<◌, ◌⊎◌, List, [], Option, Some, None, false, true};
ghost use Rattle.std.specs.Prelude.{IsTrue, IsSome, IfOk, OnOk, IfErr, IsErrOf, option_map, length};
ghost use Rattle.qv_io.specs.Count.{Rose};
ghost use Rattle.qv_io.specs.Source.{TellsAsBefore};
ghost use Rattle.qv_text.specs.Progress.{fed, IsOpen};
ghost use Rattle.qv_sexpr.specs.Script.{Tree, command};
ghost use Rattle.qv_sexpr.specs.Items.{IsExprOf};
ghost use Rattle.qv_sexpr.specs.Limits.{piece_size, read_limit};
ghost use Rattle.qv_sexpr.specs.Calls.{ReadsOnDemand};
ghost use Rattle.qv_sexpr.specs.Causes.{FailsBehind, MeetsLimit};
ghost use Rattle.qv_sexpr.specs.Input.{Leaves, CommandCause};
ghost use Rattle.qv_sexpr.specs.Reader.{behind, to_read, stop_of, CommandStop, GivesNext, FedGiven};
ghost use Rattle.qv_sexpr.specs.Reader.{TakesBelow};

use crate::NoMemory;
use crate::answers::{Next, Stop};
use crate::building::Builder;
use crate::input::Input;
use crate::items::Expr;
use qv_io::Source;
use std::alloc::Global;
use std::marker::Model;

/// Reads the commands of a script, one after another.
#[derive(Drop)]
pub struct Reader {
    alloc: Global,
    input: Input,
    /// Why reading stopped, if it did.
    stopped: Option<Stop>,
}

impl Model for Reader {
    ghost use Rattle.qv_sexpr.specs.Reader.{Position};

    ghost Value = { Position };

    ghost view = { λ r. record { lexer = r.input.lexer; stopped = r.stopped } };

    ghost use Rattle.std.specs.Prelude.{◌≡◌, ◌<◌, None, length};
    ghost use Rattle.qv_sexpr.specs.Limits.{piece_size};

    ghost invariant = { λ r. r.stopped ≡ None → length r.input.lexer.rest < piece_size };
}

impl Reader {
    pub fn new(alloc: Global) -> Result<Reader, NoMemory>
        ensures { IfOk result (λ reader. reader ≡ record {
          lexer = record { place = 0; rest = []; finished = false; last = None };
          stopped = None;
        }) }
    {
        Ok(Reader {
            alloc,
            input: Input::new(alloc),
            stopped: None,
        })
    }

    /// The next command of the script. It takes a further piece of the source only where what was
    /// taken doesn't show the next token. After an answer that is no command the same answer comes
    /// again, and the source is left alone.
    pub fn next_command<S: Source>(&mut self, source: &mut S) -> Next
        // Where the source tells its bytes, this is what comes next in them.
        ensures next { GivesNext (to_read self.old (S.left source.old)) result
            (to_read self.new (S.left source.new)) }
        // What isn't a command ends the reading.
        ensures stopped { self.new.stopped ≡ stop_of result }
        ensures again { IsSome self.old.stopped → (self.new ≡ self.old)
            × (source.new ≡ source.old) }
        // At most a piece, but for one byte, was taken behind the command's close parenthesis.
        ensures ahead { self.new.stopped ≡ None → length self.new.lexer.rest < piece_size }
        ensures failed { self.old.stopped ≡ None → self.new.stopped ≡ Some Stop.ReadFault →
            Rose (S.faults source.old) (S.faults source.new) × (fed self.new.lexer < read_limit) }
        ensures limit { self.old.stopped ≡ None → self.new.stopped ≡ Some Stop.ReadLimit →
            (read_limit ≤ fed self.new.lexer) × IsOpen self.new.lexer }
        // Nothing is taken at the limit or behind the end.
        ensures below { TakesBelow self.old.lexer self.new.lexer }
        // A command takes bytes.
        ensures forward { self.new.stopped ≡ None → self.old.lexer.place < self.new.lexer.place }
        // What it took, the source gave.
        ensures given { self.old.stopped ≡ None → self.new.stopped ≡ None
            ⊎ (self.new.stopped ≡ Some Stop.ReadLimit) →
            FedGiven (S.left source.old) self.old.lexer (S.left source.new) self.new.lexer }
        ensures untouched { (read_limit ≤ fed self.old.lexer) ⊎ IsTrue self.old.lexer.finished →
            source.new ≡ source.old }
        ensures telling { TellsAsBefore (S.left source.old) (S.left source.new) }
        ensures count { S.faults source.old ≤ S.faults source.new }
        // Which bytes were taken of a source, told or not, where it gives no more: no whole command
        // stands in them.
        ensures fault_cause { self.old.stopped ≡ None → self.new.stopped ≡ Some Stop.ReadFault →
            FailsBehind S.read_gives self.old.lexer source.old self.new.lexer source.new }
        ensures limit_cause { self.old.stopped ≡ None → self.new.stopped ≡ Some Stop.ReadLimit →
            MeetsLimit S.read_gives self.old.lexer source.old self.new.lexer source.new }
        // The source is called only where the lexer leaves open what is next.
        ensures calls { self.old.stopped ≡ None →
            ReadsOnDemand S.read_gives self.old.lexer source.old self.new.stopped self.new.lexer
            source.new }
    {
        if let Some(stop) = self.stopped {
            return stopped_at(stop);
        }
        match read_command(self.alloc, &mut self.input, source) {
            Ok(expr) => Next::Command(expr),
            Err(stop) => {
                self.stopped = Some(stop);
                stopped_at(stop)
            }
        }
    }
}

fn stopped_at(stop: Stop) -> Next
    ensures { stop_of result ≡ Some stop }
{
    match stop {
        Stop::End => Next::End,
        Stop::ReadFault => Next::ReadFault,
        Stop::ReadLimit => Next::ReadLimit,
        Stop::Lex(fault) => Next::Lex(fault),
        Stop::Parse(fault) => Next::Parse(fault),
        Stop::NestingLimit { place } => Next::NestingLimit { place },
        Stop::NoMemory => Next::NoMemory,
    }
}

/// The next command, or why there is none.
fn read_command<S: Source>(alloc: Global, input: &mut Input, source: &mut S) -> Result<Expr, Stop>
    ensures ok { IfOk result (λ expr. (tree : Tree) × IsExprOf tree expr
        × (behind input.old.lexer (S.left source.old)
        ≡ option_map (command tree) (behind input.new.lexer (S.left source.new)))) }
    ensures err { IfErr result
        (CommandStop (Rose (S.faults source.old) (S.faults source.new))
        (behind input.old.lexer (S.left source.old)) input.new.lexer) }
    ensures ahead { length input.old.lexer.rest < piece_size →
        IfOk result (λ expr. length input.new.lexer.rest < piece_size) }
    ensures forward { OnOk result (input.old.lexer.place < input.new.lexer.place) }
    ensures given { OnOk result
        (FedGiven (S.left source.old) input.old.lexer (S.left source.new) input.new.lexer) }
    ensures given_limit { IsErrOf result Stop.ReadLimit →
        FedGiven (S.left source.old) input.old.lexer (S.left source.new) input.new.lexer }
    ensures leaves { Leaves S.left S.faults input.old.lexer source.old input.new.lexer source.new }
    ensures calls { OnOk result
        (ReadsOnDemand S.read_gives input.old.lexer source.old None input.new.lexer source.new) }
    ensures calls_err { IfErr result
        (λ stop. ReadsOnDemand S.read_gives input.old.lexer source.old (Some stop) input.new.lexer
        source.new) }
    ensures cause { IfErr result
        (λ stop. CommandCause S.read_gives input.old.lexer source.old stop input.new.lexer
        source.new) }
{
    let mut builder = Builder::new(alloc);
    'tokens: while let Some(token) = input.next_token(source)? {
        if builder.take(token, input.text(&token))? {
            return Ok(builder.into_expr());
        }
    }
    Err(builder.at_end())
}
