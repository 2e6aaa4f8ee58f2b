//! Lines are read.

ghost use Rattle.std.specs.Prelude.{◌≡◌, ◌<◌, ◌≤◌, ◌∷◌, None, Some, IfSome, IfNone, IfOk, IfErr};
ghost use Rattle.qv_words.specs.Sort.{IsLawful};
ghost use Rattle.qv_lrat_text.specs.Words.{words};
ghost use Rattle.qv_lrat_text.specs.Grammar.{lrat_line, without_lf};
ghost use Rattle.qv_lrat_text.specs.declared.fault.LineFault.{LineFault};
ghost use Rattle.qv_sorts.specs.Search.{indexed_operator};
ghost use Rattle.qv_cert.specs.Line.{IsCertLine};
ghost use Rattle.qv_cert.specs.LineView.{cert_line_of};
ghost use Rattle.qv_cert.specs.Grammar.{header, check, literal_in, literal_node, application};
ghost use Rattle.qv_cert.specs.Grammar.{node_line, node, rewriting, read, alone, formed, or_fault};
ghost use Rattle.qv_cert.specs.Grammar.{sort_of_width, outer_line, inner_line, cert_line};
ghost use Rattle.qv_cert.specs.Reading.{Gives, Fails, behind_keyword, is_end};
ghost use Rattle.qv_cert.specs.declared.kind.RefusalKind.TheVariants as RefusalKind;

use crate::fault::CertLineFault;
use crate::keyword::{Keyword, answer_named};
use crate::line::Line;
use crate::numbers::{
    first_number, large_number, number, numbers, numbers_to_colon, one_number, only_word,
    three_numbers, two_numbers,
};
use qv_lrat_text::words::{is_byte_word, split_word};
use qv_lrat_text::{LineFault, LineReader};
use qv_rewrite_passes::pass_named;
use qv_sorts::op_named;
use qv_words::{Op, Sort, Word};
use std::alloc::Global;

// `1` or `2`, behind `qbv-cert`.
fn header(text: &[u8]) -> Result<Line, CertLineFault>
    ensures { Gives cert_line_of result (or_fault RefusalKind.Header (header (words text.now))) }
{
    let word = only_word(text).ok_or(CertLineFault::Header)?;
    if is_byte_word(word, b'1') {
        Ok(Line::Header { version: 1 })
    } else if is_byte_word(word, b'2') {
        Ok(Line::Header { version: 2 })
    } else {
        Err(CertLineFault::Header)
    }
}

// `I A`, behind `check`.
fn check(text: &[u8]) -> Result<Line, CertLineFault>
    ensures { Gives cert_line_of result (formed (read (check (words text.now)))) }
{
    let (number, rest) = first_number(text).ok_or(CertLineFault::Form)?;
    let word = only_word(rest).ok_or(CertLineFault::Form)?;
    let answer = answer_named(word).ok_or(CertLineFault::Form)?;
    Ok(Line::Check { number, answer })
}

// The sort of a width, where 0 stands for `Bool`.
fn sort_of_width(width: u64) -> Option<Sort>
    ensures some { IfSome result (λ sort. (sort ≡ sort_of_width width) × (width ≤ 128)
        × IsLawful sort) }
    ensures none { IfNone result (128 < width) }
{
    if width == 0 {
        Some(Sort::Bool)
    } else {
        Sort::bits(u128::from(width))
    }
}

// The node that is a literal, where its sort has the value.
#[tactic(auto, using(crate::proofs::ReadingLemmas::too_wide, crate::proofs::ReadingLemmas::no_value, crate::proofs::ReadingLemmas::a_value))]
fn literal_node(node: u64, width: u64, value: u128) -> Result<Line, CertLineFault>
    ensures { Gives cert_line_of result (literal_node node width value) }
{
    let Some(sort) = sort_of_width(width) else {
        return Err(CertLineFault::Literal);
    };
    match Word::new(sort, value) {
        Some(word) => Ok(Line::LitNode { node, word }),
        None => Err(CertLineFault::Literal),
    }
}

// `W V`, behind `n K c`.
fn literal_in(node: u64, text: &[u8]) -> Result<Line, CertLineFault>
    ensures { Gives cert_line_of result (formed (literal_in node (words text.now))) }
{
    let (width, rest) = first_number(text).ok_or(CertLineFault::Form)?;
    let word = only_word(rest).ok_or(CertLineFault::Form)?;
    let value = large_number(word).ok_or(CertLineFault::Form)?;
    literal_node(node, width, value)
}

// The operator of this name with these indices.
#[tactic(auto, using(crate::proofs::ReadingLemmas::named_operator))]
fn operator_named(name: &[u8], indices: &[u128]) -> Option<Op>
    ensures { result ≡ indexed_operator name.now indices.now }
{
    op_named(name, indices).ok()
}

// `NAME INDICES : NODES`, behind `n K o`.
#[tactic(auto, using(crate::proofs::ReadingLemmas::applied))]
fn application(alloc: Global, node: u64, text: &[u8]) -> Result<Line, CertLineFault>
    ensures { Gives cert_line_of result (formed (application node (words text.now))) }
{
    let Some((name, rest)) = split_word(text) else {
        return Err(CertLineFault::Form);
    };
    let (indices, rest) = numbers_to_colon(alloc, rest)?;
    let kids = numbers(alloc, rest)?;
    match operator_named(name, &indices) {
        Some(op) => Ok(Line::OpNode { node, op, kids }),
        None => Err(CertLineFault::Operator),
    }
}

// What stands behind the word that says which node it is.
fn node_line(alloc: Global, node: u64, form: &[u8], text: &[u8]) -> Result<Line, CertLineFault>
    ensures { Gives cert_line_of result (formed (node_line node (form.now ∷ words text.now))) }
{
    if is_byte_word(form, b'v') {
        let place = one_number(text).ok_or(CertLineFault::Form)?;
        Ok(Line::VarNode { node, place })
    } else if is_byte_word(form, b'g') {
        let line = one_number(text).ok_or(CertLineFault::Form)?;
        Ok(Line::EigenNode { node, line })
    } else if is_byte_word(form, b'c') {
        literal_in(node, text)
    } else if is_byte_word(form, b'o') {
        application(alloc, node, text)
    } else {
        Err(CertLineFault::Form)
    }
}

// `K` and what stands behind it, behind `n`.
#[tactic(auto, using(crate::proofs::ReadingLemmas::node_first))]
fn node(alloc: Global, text: &[u8]) -> Result<Line, CertLineFault>
    ensures { Gives cert_line_of result (formed (node (words text.now))) }
{
    let Some((node, rest)) = first_number(text) else {
        return Err(CertLineFault::Form);
    };
    match split_word(rest) {
        Some((form, rest)) => node_line(alloc, node, form, rest),
        None => Err(CertLineFault::Form),
    }
}

// `NAME`, behind `w`.
fn rewriting(text: &[u8]) -> Result<Line, CertLineFault>
    ensures { Gives cert_line_of result (formed (rewriting (words text.now))) }
{
    let name = only_word(text).ok_or(CertLineFault::Form)?;
    let pass = pass_named(name).ok_or(CertLineFault::Rule)?;
    Ok(Line::Rewrite { pass })
}

// The line, where no word stands behind it.
fn alone(line: Line, text: &[u8]) -> Result<Line, CertLineFault>
    ensures { Gives cert_line_of result
        (formed (read (alone (cert_line_of line) (words text.now)))) }
{
    match split_word(text) {
        None => Ok(line),
        Some(_) => Err(CertLineFault::Form),
    }
}

// What stands behind a keyword.
fn behind_keyword(alloc: Global, keyword: Keyword, text: &[u8]) -> Result<Line, CertLineFault>
    ensures { Gives cert_line_of result (formed (behind_keyword keyword (words text.now))) }
{
    match keyword {
        Keyword::Header => header(text),
        Keyword::Check => check(text),
        Keyword::Node => node(alloc, text),
        Keyword::Skolem => {
            let (place, node) = two_numbers(text).ok_or(CertLineFault::Form)?;
            Ok(Line::Skolem { place, node })
        }
        Keyword::Instance => {
            let (line, parent, node) = three_numbers(text).ok_or(CertLineFault::Form)?;
            Ok(Line::Instance { line, parent, node })
        }
        Keyword::Eigen => {
            let (line, parent) = two_numbers(text).ok_or(CertLineFault::Form)?;
            Ok(Line::Eigen { line, parent })
        }
        Keyword::Rewrite => rewriting(text),
        Keyword::Lrat => alone(Line::Lrat, text),
        Keyword::End => alone(Line::End, text),
    }
}

// A line outside the refutation.
#[tactic(auto, using(crate::proofs::ReadingLemmas::by_keyword))]
fn outer_line(alloc: Global, text: &[u8]) -> Result<Line, CertLineFault>
    ensures { Gives cert_line_of result (outer_line (words text.now)) }
{
    let Some((word, rest)) = split_word(text) else {
        return Err(CertLineFault::Form);
    };
    match Keyword::named(word) {
        Some(keyword) => behind_keyword(alloc, keyword, rest),
        None => Err(CertLineFault::Form),
    }
}

// Whether the text is `end`.
fn is_end(text: &[u8]) -> bool
    ensures { result ≡ is_end (words text.now) }
{
    match split_word(text) {
        Some((word, rest)) => word == b"end".as_slice() && split_word(rest).is_none(),
        None => false,
    }
}

// The text without the LF at its end, where one stands there.
fn without_lf(text: &[u8]) -> &[u8]
    ensures { result.now ≡ without_lf text.now }
{
    match text {
        [front @ .., b'\n'] => front,
        _ => text,
    }
}

// A line of the refutation, or `end`, which is no step.
#[tactic(auto, using(crate::proofs::ReadingLemmas::a_step), unfolding(qv_lrat_text::specs::Grammar::lrat_line))]
fn inner_line(steps: &mut LineReader, bytes: &[u8]) -> Result<Line, CertLineFault>
    ensures { Gives cert_line_of result (inner_line (words (without_lf bytes.now))) }
{
    match steps.read(bytes) {
        Ok(step) => Ok(Line::Step(step)),
        Err(fault) => no_step(bytes, fault),
    }
}

// What bytes are that are no step: `end`, or what is wrong with them.
#[tactic(auto, using(crate::proofs::ReadingLemmas::at_end, crate::proofs::ReadingLemmas::no_end), unfolding(qv_lrat_text::specs::Grammar::lrat_line))]
fn no_step(bytes: &[u8], fault: LineFault) -> Result<Line, CertLineFault>
    requires { fault ≡ LineFault.Form → lrat_line bytes.now ≡ None }
    ensures { Gives cert_line_of result (inner_line (words (without_lf bytes.now))) }
{
    if is_end(without_lf(bytes)) {
        Ok(Line::End)
    } else {
        Err(CertLineFault::from(fault))
    }
}

/// The line that the bytes are, with or without their LF: in a refutation a line of it or `end`,
/// and otherwise any line but those of refutations.
pub fn read_cert_line(alloc: Global, bytes: &[u8], in_lrat: bool) -> Result<Line, CertLineFault>
    ensures read { IfOk result (λ line. cert_line in_lrat bytes.now ≡ Ok (cert_line_of line)) }
    ensures in_range { IfOk result (λ line. IsCertLine (cert_line_of line)) }
    ensures fault { IfErr result (λ fault. Fails fault (cert_line in_lrat bytes.now)) }
{
    read_with(alloc, &mut LineReader::new(alloc), bytes, in_lrat)
}

// The line that the bytes are, a step in the memory of the reader of steps.
#[tactic(auto, using(crate::proofs::ReadingLemmas::gives_ok, crate::proofs::ReadingLemmas::gives_fault, crate::proofs::ReadingLemmas::in_ranges), unfolding(crate::specs::Grammar::cert_line))]
pub(crate) fn read_with(
    alloc: Global,
    steps: &mut LineReader,
    bytes: &[u8],
    in_lrat: bool,
) -> Result<Line, CertLineFault>
    ensures read { IfOk result (λ line. cert_line in_lrat bytes.now ≡ Ok (cert_line_of line)) }
    ensures in_range { IfOk result (λ line. IsCertLine (cert_line_of line)) }
    ensures fault { IfErr result (λ fault. Fails fault (cert_line in_lrat bytes.now)) }
{
    if in_lrat {
        inner_line(steps, bytes)
    } else {
        outer_line(alloc, without_lf(bytes))
    }
}
