//! A file is read from its source.

ghost use Rattle.std.specs.Prelude.{◌≡◌, ◌≤◌, [], IfOk, IfErr};
ghost use Rattle.qv_io.specs.Count.{Rose};
ghost use Rattle.qv_io.specs.Source.{TellsAsBefore};
ghost use Rattle.qv_qdimacs.specs.Outer.{AreOnce, variables_of};
ghost use Rattle.qv_qdimacs.specs.Text.{File};
ghost use Rattle.qv_qdimacs.specs.Reading.{GivesText, TextSays, HasFault, IsUnread, TakesPiece};

use crate::faults::QdimacsFault;
use crate::files::Qdimacs;
use crate::parsing::parse;
use qv_io::{LIMIT, PIECE, Source};
use std::alloc::Global;

/// Reads a file from its source: all of the text, a piece at a time, and then what it says.
pub fn read_qdimacs<S: Source>(alloc: Global, source: &mut S) -> Result<Qdimacs, QdimacsFault>
    // It is the file of the text, and no variable stands twice in its prefix.
    ensures read { IfOk result (λ file. TextSays S.read_gives S.left source.old
        (File file.prefix.items file.clauses) source.new) }
    ensures once { IfOk result (λ file. AreOnce (variables_of file.prefix.items)) }
    // The fault is the first one of the text, or the source's.
    ensures fault { IfErr result (λ fault. HasFault S.read_gives S.left
        (Rose (S.faults source.old) (S.faults source.new)) source.old fault source.new) }
    ensures telling { TellsAsBefore (S.left source.old) (S.left source.new) }
    ensures count { S.faults source.old ≤ S.faults source.new }
{
    let mut text = Vec::new(alloc);
    read_text(source, &mut text)?;
    parse(alloc, &text)
}

// Reads pieces up to the end of the text.
fn read_text<S: Source>(source: &mut S, text: &mut Vec<u8>) -> Result<(), QdimacsFault>
    requires { text.old.items ≡ [] }
    ensures text { IfOk result (λ _.
        GivesText S.read_gives S.left source.old text.new.items source.new) }
    ensures fault { IfErr result (λ fault. IsUnread S.read_gives S.left
        (Rose (S.faults source.old) (S.faults source.new)) source.old fault source.new) }
    ensures telling { TellsAsBefore (S.left source.old) (S.left source.new) }
    ensures count { S.faults source.old ≤ S.faults source.new }
{
    'pieces: while read_piece(source, text)? {}
    Ok(())
}

// Reads the next piece, and answers whether there is more of the text.
fn read_piece<S: Source>(source: &mut S, text: &mut Vec<u8>) -> Result<bool, QdimacsFault>
    ensures takes { TakesPiece S.read_gives S.left
        (Rose (S.faults source.old) (S.faults source.new)) text.old.items source.old result
        text.new.items source.new }
    ensures telling { TellsAsBefore (S.left source.old) (S.left source.new) }
    ensures count { S.faults source.old ≤ S.faults source.new }
{
    if text.len() >= LIMIT {
        return Err(QdimacsFault::ReadLimit);
    }
    let mut piece = [0; PIECE];
    let n = source.read(&mut piece)?;
    if n == 0 {
        return Ok(false);
    }
    text.extend_from_slice(&piece[..n])?;
    Ok(true)
}
