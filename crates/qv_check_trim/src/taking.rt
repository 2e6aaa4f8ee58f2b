//! A source is taken whole.

ghost use Rattle.std.specs.Prelude.{◌≡◌, ◌<◌, ◌≤◌, Err, IfOk, IfSome, length};
ghost use Rattle.qv_io.specs.Count.{Rose};
ghost use Rattle.qv_sexpr.specs.Limits.{read_limit};
ghost use Rattle.qv_check_defs.specs.Limits.{MetLimit};
ghost use Rattle.qv_check_trim.specs.Taking.{TakesPiece};

use qv_check_script::Halt;
use qv_io::{LIMIT, PIECE, Source};
use std::alloc::Global;

/// Takes all bytes of a source, unless they are as many as the limit allows.
pub fn take_all<C: Source>(alloc: Global, source: &mut C) -> Result<Vec<u8>, Halt>
    ensures all { IfOk result (λ bytes. IfSome (C.left source.old) (λ told. bytes.items ≡ told)) }
    ensures small { IfOk result (λ bytes. length bytes.items < read_limit) }
    ensures read { result ≡ Err Halt.Read → Rose (C.faults source.old) (C.faults source.new) }
    ensures limit { result ≡ Err Halt.ReadLimit →
        MetLimit C.read_gives (C.left source.old) source.old source.new }
    ensures no_write { result ≡ Err Halt.Write → ⊥ }
    ensures count { C.faults source.old ≤ C.faults source.new }
{
    let mut bytes = Vec::new(alloc);
    'pieces: while bytes.len() < LIMIT {
        if !take_piece(source, &mut bytes)? {
            return Ok(bytes);
        }
    }
    Err(Halt::ReadLimit)
}

// Takes the next piece behind the others, and says whether there was one.
fn take_piece<C: Source>(source: &mut C, bytes: &mut Vec<u8>) -> Result<bool, Halt>
    ensures takes { IfOk result (λ more. TakesPiece C.read_gives C.left more
        bytes.old.items source.old bytes.new.items source.new) }
    ensures read { result ≡ Err Halt.Read → Rose (C.faults source.old) (C.faults source.new) }
    ensures no_limit { result ≡ Err Halt.ReadLimit → ⊥ }
    ensures no_write { result ≡ Err Halt.Write → ⊥ }
    ensures count { C.faults source.old ≤ C.faults source.new }
{
    let mut piece = [0; PIECE];
    match source.read(&mut piece) {
        Ok(n) => {
            bytes.extend_from_slice(&piece[..n])?;
            Ok(n > 0)
        }
        Err(_) => Err(Halt::Read),
    }
}
