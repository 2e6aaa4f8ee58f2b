//! A file is answered.

ghost use Rattle.std.specs.Prelude.{◌≡◌, ◌<◌, false, All, IfOk, OnErr, length, replicate};
ghost use Rattle.qv_meter.specs.Records.{AreLimits, records_of};
ghost use Rattle.qv_meter.specs.Views.{limits_of};
ghost use Rattle.qv_qdimacs.specs.Outer.{AreOnce, variables_of};
ghost use Rattle.qv_qdimacs.specs.Text.{File};
ghost use Rattle.qv_shell_qdimacs.specs.Answers.{Sat, answer_text};
ghost use Rattle.qv_shell_qdimacs.specs.Replies.{CanReply, HasTried, HaveFit};
ghost use Rattle.qv_shell_qdimacs.specs.Replies.{IsReplyBy, IsReplyOf, IsReplyTo, answer_in};
ghost use Rattle.qv_shell_qdimacs.specs.Values.{filled};

use crate::ending::FileEnding;
use crate::replies::{Reply, faulty};
use crate::texts::{LIMIT_WORD, push_values};
use crate::values::all_values;
use qv_meter::{Limits, Meter};
use qv_qdimacs::{Qdimacs, translate};
use qv_shell_answer::section_of;
use qv_solve::{ConstValue, SolveFault, Solved, solve_one};
use qv_store::{NoMemory, Store};
use std::alloc::{AllocError, Global};

/// The reply to a file: its answer with the section, or that it has too many places.
pub(crate) fn answer(
    alloc: Global,
    places: u32,
    limits: Limits,
    file: &Qdimacs,
    meter: &mut Meter,
) -> Result<Reply, NoMemory>
    requires once { AreOnce (variables_of file.now.prefix.items) }
    requires limits { AreLimits (limits_of limits) }
    ensures reply { IfOk result (IsReplyTo places (limits_of limits)
        (File file.now.prefix.items file.now.clauses) (records_of meter.old)
        (records_of meter.new)) }
    ensures tried { OnErr result (HasTried (limits_of limits) (records_of meter.old)
        (records_of meter.new)) }
{
    let mut store = Store::new(alloc);
    let translated = translate(alloc, &mut store, file)?;
    let solved = solve_one(
        alloc,
        &mut store,
        &[translated.formula],
        &[],
        1,
        places,
        limits,
        meter,
    );
    reply_by(alloc, &translated.outer, &solved)
}

// The reply by what a solver came to.
fn reply_by(
    alloc: Global,
    outer: &[u32],
    solved: &Result<Solved, SolveFault>,
) -> Result<Reply, NoMemory>
    requires { IfOk solved.now (CanReply (length outer.now)) }
    ensures { IfOk result (IsReplyBy outer.now solved.now) }
{
    match solved {
        Ok(solved) => reply_of(alloc, outer, solved),
        Err(SolveFault::PrefixLimit) => faulty(alloc, 0, LIMIT_WORD),
        Err(SolveFault::NoMemory) => Err(AllocError),
    }
}

// The reply of an answer.
fn reply_of(alloc: Global, outer: &[u32], solved: &Solved) -> Result<Reply, NoMemory>
    requires { CanReply (length outer.now) solved.now }
    ensures { IfOk result (IsReplyOf outer.now solved.now) }
{
    let section = section_of(alloc, solved)?;
    let text = answer_text(alloc, outer, solved)?;
    Ok(Reply {
        section,
        text,
        ending: FileEnding::Answered,
    })
}

// What is printed of an answer.
fn answer_text(alloc: Global, outer: &[u32], solved: &Solved) -> Result<Vec<u8>, AllocError>
    requires { HaveFit (length outer.now) solved.now }
    ensures { IfOk result (λ text. text.items
        ≡ answer_text outer.now (answer_in (length outer.now) solved.now)) }
{
    match solved {
        Solved::Sat { constants, .. } => sat_text(alloc, outer, constants),
        Solved::Unsat { .. } => Vec::from_slice(alloc, b"unsat\n"),
        Solved::Unknown { .. } => Vec::from_slice(alloc, b"unknown\n"),
    }
}

// The same where values are given.
fn sat_text(alloc: Global, outer: &[u32], given: &[ConstValue]) -> Result<Vec<u8>, AllocError>
    requires { All (λ v. v.index < length outer.now) given.now }
    ensures { IfOk result (λ text. text.items
        ≡ answer_text outer.now (Sat (filled (replicate (length outer.now) false) given.now))) }
{
    let values = all_values(alloc, outer.len(), given)?;
    let mut text = Vec::from_slice(alloc, b"sat\n")?;
    push_values(outer, &values, &mut text)?;
    Ok(text)
}
