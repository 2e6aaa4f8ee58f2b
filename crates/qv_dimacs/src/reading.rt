//! A text is read from its source.

ghost use Rattle.std.specs.Prelude.{◌≡◌, ◌≤◌, ◌<◌, ◌+◌, ◌^◌, IfOk, IfErr, OnOk};
ghost use Rattle.qv_io.specs.Count.{Rose};
ghost use Rattle.qv_io.specs.Source.{TellsAsBefore};
ghost use Rattle.qv_dimacs.specs.Clauses.{Clauses};
ghost use Rattle.qv_dimacs.specs.Machine.{start_state};
ghost use Rattle.qv_dimacs.specs.Reading.{TextSays, HasFault};
ghost use Rattle.qv_dimacs.specs.Taking.{TakesPiece, HaltsText};
ghost use Rattle.qv_dimacs.specs.View.{state_of};

use crate::faults::{DimacsFault, Halt};
use crate::machine::Machine;
use qv_cnf::Packed;
use qv_io::{LIMIT, PIECE, Source};
use std::alloc::Global;

/// The clauses of a text, in its order.
#[derive(Debug, Drop)]
pub struct Dimacs {
    pub clauses: Packed,
}

/// Reads a text from its source, a piece at a time. Behind a fault, and behind the word that ends
/// the clauses, no further piece is asked for.
pub fn read_dimacs<S: Source>(alloc: Global, source: &mut S) -> Result<Dimacs, DimacsFault>
    // They are the clauses of the text.
    ensures read { IfOk result (λ dimacs.
        TextSays S.read_gives S.left source.old (Clauses dimacs.clauses) source.new) }
    // The fault is the first one of the text, or the source's.
    ensures fault { IfErr result (λ fault. HasFault S.read_gives S.left
        (Rose (S.faults source.old) (S.faults source.new)) source.old fault source.new) }
    ensures telling { TellsAsBefore (S.left source.old) (S.left source.new) }
    ensures count { S.faults source.old ≤ S.faults source.new }
{
    let mut machine = Machine::new(alloc);
    match read_text(&mut machine, source) {
        Halt::Done => Ok(Dimacs {
            clauses: machine.clauses,
        }),
        Halt::Fault(fault) => Err(fault),
    }
}

// Reads pieces up to the end of the text.
fn read_text<S: Source>(machine: &mut Machine, source: &mut S) -> Halt
    requires { state_of machine.old ≡ start_state }
    ensures halts { HaltsText S.read_gives S.left
        (Rose (S.faults source.old) (S.faults source.new)) source.old result
        (state_of machine.new) source.new }
    ensures telling { TellsAsBefore (S.left source.old) (S.left source.new) }
    ensures count { S.faults source.old ≤ S.faults source.new }
{
    'pieces: loop {
        match read_piece(machine, source) {
            Ok(()) => {}
            Err(halt) => return halt,
        }
    }
}

// Reads the next piece.
fn read_piece<S: Source>(machine: &mut Machine, source: &mut S) -> Result<(), Halt>
    ensures takes { TakesPiece S.read_gives S.left
        (Rose (S.faults source.old) (S.faults source.new)) (state_of machine.old) source.old
        result (state_of machine.new) source.new }
    ensures telling { TellsAsBefore (S.left source.old) (S.left source.new) }
    ensures count { S.faults source.old ≤ S.faults source.new }
{
    if machine.place >= LIMIT as u64 {
        return Err(Halt::Fault(DimacsFault::ReadLimit));
    }
    let mut piece = [0; PIECE];
    let n = source.read(&mut piece)?;
    if n == 0 {
        machine.finish()?;
        return Err(Halt::Done);
    }
    machine.take_all(&piece[..n])
}
