//! Lines are printed.

ghost use Rattle.std.specs.Prelude.{◌≡◌, ◌∷◌, [], ◌++◌, true, Ok, OnOk, OnErr, map, decimal};
ghost use Rattle.qv_sorts.specs.Names.{name_of, indices_of};
ghost use Rattle.qv_lrat_text.specs.Words.{Keeps};
ghost use Rattle.qv_cert.specs.Line.{IsCertLine, OperatorNode, End};
ghost use Rattle.qv_cert.specs.LineView.{cert_line_of};
ghost use Rattle.qv_cert.specs.Grammar.{cert_line};
ghost use Rattle.qv_cert_text.specs.Pieces.{piece_text};
ghost use Rattle.qv_cert.specs.Spelling.{behind_spaces, joined, cert_text, is_step};
ghost use Rattle.qv_cert.specs.Spelling.{answer_name, width_number};

use itoa::Buffer;
use qv_cert::{Line, NoMemory};
use qv_lrat_text::print_line;
use qv_rewrite_passes::name_of_pass;
use qv_sorts::name_of;
use qv_words::{Answer, Op, Sort};
use std::alloc::AllocError;

/// A word that is printed.
#[derive(Clone, Copy)]
pub(crate) enum Piece<'a> {
    Word(&'a [u8]),
    Number(u128),
}

// Adds a space and the word.
fn push_piece(piece: &Piece<'_>, out: &mut Vec<u8>) -> Result<(), AllocError>
    ensures ok { OnOk result (out.new.items ≡ out.old.items ++ 32 ∷ piece_text piece.now) }
    ensures kept { Keeps out.old.items out.new.items }
{
    out.push(b' ')?;
    match piece {
        Piece::Word(word) => out.extend_from_slice(word),
        Piece::Number(number) => out.extend_from_slice(Buffer::new().format(*number).as_bytes()),
    }
}

// Adds a space and the word of each piece.
#[tactic(auto, using(qv_lrat_text::proofs::KeptLemmas::keeps_longer))]
fn push_pieces(pieces: &[Piece<'_>], out: &mut Vec<u8>) -> Result<(), AllocError>
    ensures ok { OnOk result (out.new.items
        ≡ out.old.items ++ behind_spaces (map piece_text pieces.now)) }
    ensures kept { Keeps out.old.items out.new.items }
{
    'pieces: for piece in pieces {
        push_piece(piece, out)?;
    }
    Ok(())
}

// Adds the line of these words.
#[tactic(auto, using(qv_lrat_text::proofs::KeptLemmas::keeps_longer))]
fn push_words(first: &[u8], pieces: &[Piece<'_>], out: &mut Vec<u8>) -> Result<(), AllocError>
    ensures ok { OnOk result
        (out.new.items ≡ out.old.items ++ joined first.now (map piece_text pieces.now)) }
    ensures kept { Keeps out.old.items out.new.items }
{
    out.extend_from_slice(first)?;
    push_pieces(pieces, out)?;
    out.push(b'\n')?;
    Ok(())
}

// Adds a space and the number for each of them.
#[tactic(auto, using(qv_lrat_text::proofs::KeptLemmas::keeps_longer))]
fn push_numbers(numbers: &[u64], out: &mut Vec<u8>) -> Result<(), AllocError>
    ensures ok { OnOk result (out.new.items
        ≡ out.old.items ++ behind_spaces (map decimal numbers.now)) }
    ensures kept { Keeps out.old.items out.new.items }
{
    'numbers: for number in numbers {
        push_piece(&Piece::Number(u128::from(*number)), out)?;
    }
    Ok(())
}

// Adds a space and the number for each index of the operator.
fn push_indices(op: Op, out: &mut Vec<u8>) -> Result<(), AllocError>
    ensures ok { OnOk result (out.new.items
        ≡ out.old.items ++ behind_spaces (map decimal (indices_of op))) }
    ensures kept { Keeps out.old.items out.new.items }
{
    match op {
        Op::Extract(i, j) => push_pieces(&[Piece::Number(i), Piece::Number(j)], out),
        Op::Repeat(k)
        | Op::ZeroExtend(k)
        | Op::SignExtend(k)
        | Op::RotateLeft(k)
        | Op::RotateRight(k) => push_pieces(&[Piece::Number(k)], out),
        _ => Ok(()),
    }
}

// Adds the line of a node that is an operator's application.
#[tactic(auto, using(qv_lrat_text::proofs::KeptLemmas::keeps_longer), unfolding(qv_cert::specs::Spelling::cert_text))]
fn push_application(node: u64, op: Op, kids: &[u64], out: &mut Vec<u8>) -> Result<(), AllocError>
    ensures ok { OnOk result
        (out.new.items ≡ out.old.items ++ cert_text (OperatorNode node op kids.now)) }
    ensures kept { Keeps out.old.items out.new.items }
{
    out.push(b'n')?;
    let node = Piece::Number(u128::from(node));
    push_pieces(&[node, Piece::Word(b"o"), Piece::Word(name_of(op))], out)?;
    push_indices(op, out)?;
    out.extend_from_slice(b" :")?;
    push_numbers(kids, out)?;
    out.push(b'\n')?;
    Ok(())
}

// The name of an answer.
fn answer_name(answer: Answer) -> &'static [u8]
    ensures { result.now ≡ answer_name answer }
{
    match answer {
        Answer::Sat => b"sat",
        Answer::Unsat => b"unsat",
        Answer::Unknown => b"unknown",
    }
}

// The word of a number.
fn number(n: u64) -> Piece<'static>
    ensures { result ≡ Piece.Number n }
{
    Piece::Number(u128::from(n))
}

// The number that stands for a sort: its width, or 0 for `Bool`.
fn width_number(sort: Sort) -> u64
    ensures { result ≡ width_number sort }
{
    match sort {
        Sort::Bool => 0,
        Sort::Bits(width) => u64::from(width),
    }
}

// Adds the line. Where memory runs out, a part of it may be added.
#[tactic(auto, unfolding(qv_cert::specs::Spelling::cert_text))]
fn push_line(line: &Line, out: &mut Vec<u8>) -> Result<(), AllocError>
    requires { IsCertLine (cert_line_of line.now) }
    ensures ok { OnOk result
        (out.new.items ≡ out.old.items ++ cert_text (cert_line_of line.now)) }
    ensures kept { Keeps out.old.items out.new.items }
{
    match line {
        Line::Header { version } => push_words(b"qbv-cert", &[number(*version)], out),
        Line::Check { number: n, answer } => {
            push_words(
                b"check",
                &[number(*n), Piece::Word(answer_name(*answer))],
                out,
            )
        }
        Line::VarNode { node, place } => {
            push_words(
                b"n",
                &[number(*node), Piece::Word(b"v"), number(*place)],
                out,
            )
        }
        Line::EigenNode { node, line } => {
            push_words(
                b"n",
                &[number(*node), Piece::Word(b"g"), number(*line)],
                out,
            )
        }
        Line::LitNode { node, word } => {
            let width = number(width_number(word.sort()));
            let value = Piece::Number(word.value());
            push_words(b"n", &[number(*node), Piece::Word(b"c"), width, value], out)
        }
        Line::OpNode { node, op, kids } => push_application(*node, *op, kids, out),
        Line::Skolem { place, node } => push_words(b"s", &[number(*place), number(*node)], out),
        Line::Instance { line, parent, node } => {
            push_words(b"i", &[number(*line), number(*parent), number(*node)], out)
        }
        Line::Eigen { line, parent } => push_words(b"e", &[number(*line), number(*parent)], out),
        Line::Rewrite { pass } => push_words(b"w", &[Piece::Word(name_of_pass(*pass))], out),
        Line::Lrat => push_words(b"lrat", &[], out),
        Line::Step(step) => print_line(step, out),
        Line::End => push_words(b"end", &[], out),
    }
}

/// Adds the line: its words with one space between them, numbers in decimal digits, and an LF.
/// Where memory runs out, nothing is added.
pub fn print_cert_line(line: &Line, out: &mut Vec<u8>) -> Result<(), NoMemory>
    requires { IsCertLine (cert_line_of line.now) }
    ensures printed { OnOk result
        (out.new.items ≡ out.old.items ++ cert_text (cert_line_of line.now)) }
    // What is printed reads as the same line, `end` in the refutation and outside.
    ensures reads { OnOk result (let said = cert_line_of line.now in
        cert_line (is_step said) (cert_text said) ≡ Ok said) }
    ensures reads_end { OnOk result
        (cert_line_of line.now ≡ End → cert_line true (cert_text End) ≡ Ok End) }
    ensures err { OnErr result (out.new.items ≡ out.old.items) }
{
    let len = out.len();
    match push_line(line, out) {
        Ok(()) => Ok(()),
        Err(error) => {
            out.truncate(len);
            Err(error)
        }
    }
}
