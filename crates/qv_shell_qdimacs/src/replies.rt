//! What is to be written of a file.

ghost use Rattle.std.specs.Prelude.{◌≡◌, ◌≤◌, IfOk, IfErr};
ghost use Rattle.qv_io.specs.Count.{Rose};
ghost use Rattle.qv_meter.specs.Records.{AreLimits, records_of};
ghost use Rattle.qv_meter.specs.Views.{limits_of};
ghost use Rattle.qv_qdimacs.specs.Reading.{TextSays};
ghost use Rattle.qv_qdimacs.specs.Text.{Said};
ghost use Rattle.qv_shell_qdimacs.specs.Replies.{IsFaultReply, IsHalted, IsReplyTo};

use crate::answering::answer;
use crate::ending::FileEnding;
use crate::texts::fault_word;
use qv_check_script::Halt;
use qv_io::Source;
use qv_meter::{Limits, Meter};
use qv_qdimacs::{QdimacsFault, read_qdimacs};
use qv_script_texts::refusal;
use std::alloc::{AllocError, Global};

/// A section, the text that is printed behind it, and how the run ends.
#[derive(Drop)]
pub(crate) struct Reply {
    pub(crate) section: Vec<u8>,
    pub(crate) text: Vec<u8>,
    pub(crate) ending: FileEnding,
}

/// The reply to the text of a source.
pub(crate) fn reply_to<S: Source>(
    alloc: Global,
    places: u32,
    limits: Limits,
    source: &mut S,
    meter: &mut Meter,
) -> Result<Reply, Halt>
    requires { AreLimits (limits_of limits) }
    ensures reply { IfOk result (λ reply. (said : Said)
        × TextSays S.read_gives S.left source.old said source.new
        × IsReplyTo places (limits_of limits) said (records_of meter.old) (records_of meter.new)
        reply) }
    ensures halted { IfErr result (IsHalted S.read_gives S.left (limits_of limits)
        (Rose (S.faults source.old) (S.faults source.new)) source.old source.new
        (records_of meter.old) (records_of meter.new)) }
    ensures count { S.faults source.old ≤ S.faults source.new }
{
    match read_qdimacs(alloc, source) {
        Ok(file) => Ok(answer(alloc, places, limits, &file, meter)?),
        Err(QdimacsFault::At { place, kind }) => Ok(faulty(alloc, place, fault_word(kind))?),
        Err(QdimacsFault::ReadFault) => Err(Halt::Read),
        Err(QdimacsFault::ReadLimit) => Err(Halt::ReadLimit),
        Err(QdimacsFault::NoMemory) => Err(Halt::NoMemory),
    }
}

/// The reply where there is no answer: the line of a fault.
pub(crate) fn faulty(alloc: Global, place: u64, word: &str) -> Result<Reply, AllocError>
    ensures { IfOk result (IsFaultReply place word.now) }
{
    Ok(Reply {
        section: Vec::new(alloc),
        text: refusal(alloc, place, word)?,
        ending: FileEnding::Faulty,
    })
}
