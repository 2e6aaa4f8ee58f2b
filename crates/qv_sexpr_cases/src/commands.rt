//! The commands of a text.

ghost use Rattle.std.specs.Prelude.{◌≡◌, ◌≢◌, ◌≤◌, false, IsTrue, IfSome};
ghost use Rattle.qv_sexpr.specs.Items.{IsExpr, Begins};

use crate::show::{say_answer, say_expr};
use qv_cases_rows::Answer;
use qv_io::MemSource;
use qv_sexpr::{Expr, ItemKind, Next, Reader};
use std::alloc::Global;

/// The answers of a reader up to the second that is no command, each with how many calls of the
/// source were made by then; then how many bytes the source has left, and how many calls failed.
pub fn read_all(
    alloc: Global,
    piece: usize,
    failing: Vec<u64>,
    text: Vec<u8>,
    is_short: bool,
    out: &mut Answer,
)
    requires { 1 ≤ piece }
{
    let most = text.len();
    let mut source = MemSource::new(text, piece, failing);
    match Reader::new(alloc) {
        Ok(mut reader) => read_from(&mut source, &mut reader, most, is_short, out),
        Err(_) => out.refuse(),
    }
}

fn read_from(
    source: &mut MemSource,
    reader: &mut Reader,
    most: usize,
    is_short: bool,
    out: &mut Answer,
) {
    for _ in 0..=most {
        if !read_one(source, reader, is_short, out) {
            break;
        }
    }
    read_one(source, reader, is_short, out);
    out.show(source.left().len());
    out.say(" left, ");
    out.show(source.faults());
    out.say(" faults");
}

// Says the next answer. Whether that is a command.
fn read_one(source: &mut MemSource, reader: &mut Reader, is_short: bool, out: &mut Answer) -> bool {
    let next = reader.next_command(source);
    say_answer(out, &next, is_short);
    out.say(" by call ");
    out.show(source.calls());
    out.say("; ");
    matches!(next, Next::Command(_))
}

/// A copy of the expression that begins at this item of the text's first command.
pub fn copy(alloc: Global, at: u64, text: Vec<u8>, out: &mut Answer) {
    match first_command(alloc, text) {
        Some(command) => copy_of(alloc, &command, at, out),
        None => out.refuse(),
    }
}

fn copy_of(alloc: Global, command: &Expr, at: u64, out: &mut Answer)
    requires { IsExpr command.now }
{
    if !begins(command, at) {
        out.refuse();
        return;
    }
    match command.copy(alloc, at) {
        Ok(copy) => say_expr(out, &copy),
        Err(_) => out.refuse(),
    }
}

fn first_command(alloc: Global, text: Vec<u8>) -> Option<Expr>
    ensures { IfSome result (λ command. IsExpr command) }
{
    let mut source = MemSource::new(text, 4096, Vec::new(alloc));
    match Reader::new(alloc) {
        Ok(mut reader) => command_of(&mut source, &mut reader),
        Err(_) => None,
    }
}

fn command_of(source: &mut MemSource, reader: &mut Reader) -> Option<Expr>
    ensures { IfSome result (λ command. IsExpr command) }
{
    match reader.next_command(source) {
        Next::Command(command) => Some(command),
        _ => None,
    }
}

// Whether an expression begins at this item.
fn begins(expr: &Expr, at: u64) -> bool
    ensures { IsTrue result → Begins expr.now at }
{
    match expr.items.get(at as usize) {
        Some(item) => !is_close(item.kind),
        None => false,
    }
}

fn is_close(kind: ItemKind) -> bool
    ensures { result ≡ false → kind ≢ ItemKind.Close }
{
    match kind {
        ItemKind::Close => true,
        ItemKind::Open { .. } | ItemKind::Atom(_) => false,
    }
}
