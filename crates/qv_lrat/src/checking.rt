//! A proof is checked beside a CNF text, and how that ends is written.

ghost use Rattle.std.specs.Prelude.{◌≡◌, ◌≢◌, ◌≤◌, ◌++◌, ◌⊎◌, ℕ, List, [], IfOk, IfSome, OnErr, IsErrOf};
ghost use Rattle.qv_io.specs.Count.{Rose};
ghost use Rattle.qv_io.specs.Sink.{Appends};
ghost use Rattle.qv_io.specs.Source.{TellsAsBefore};
ghost use Rattle.qv_cert.specs.Lines.{all_lines};
ghost use Rattle.qv_check_defs.specs.Limits.{MetLimit};
ghost use Rattle.qv_check_defs.specs.Outcome.{ending_text};
ghost use Rattle.qv_check_script.specs.Ending.{status_of};
ghost use Rattle.qv_dimacs.specs.Clauses.{dimacs_of};
ghost use Rattle.qv_lrat.specs.Judging.{OnFault, ending_of, judgement_of, verdict_of};
ghost use Rattle.qv_lrat.specs.Verdict.{fault_word, judged_beside, judged_proof, lrat_outcome};

use crate::clauses::checker_of;
use crate::judging::{Judged, judge};
use qv_check_script::{Ending, Halt, refused_line};
use qv_dimacs::{Dimacs, DimacsFault, DimacsKind, read_dimacs};
use qv_io::{Sink, Source, put_all};
use qv_script_texts::refusal;
use std::alloc::{AllocError, Global};

// What a CNF text and a proof come to: the text's first fault, or the judgement of the proof.
#[derive(Clone, Copy)]
enum Checked {
    Faulty { place: u64, kind: DimacsKind },
    Judged(Judged),
}

/// Checks a proof beside a CNF text, and writes `accepted`, the line of the proof that is refused
/// and why, or the text's first fault. The text is read first, and each line of the proof is judged
/// before the next is read.
pub fn check_proof<S: Source, C: Source, O: Sink>(
    alloc: Global,
    cnf: &mut S,
    proof: &mut C,
    out: &mut O,
) -> Result<Ending, Halt>
    // Of texts that are told this is the outcome, whole.
    ensures done { IfOk result (λ ending. IfSome (S.left cnf.old) (λ text.
        IfSome (C.left proof.old) (λ bytes. (status_of ending ≡ (lrat_outcome text bytes).status)
        × Appends (O.held out.old) (O.held out.new) (lrat_outcome text bytes).text))) }
    // Or a front of it was written.
    ensures cut { OnErr result (IfSome (S.left cnf.old) (λ text.
        IfSome (C.left proof.old) (λ bytes. (written rest : List ℕ) ×
        ((lrat_outcome text bytes).text ≡ written ++ rest)
        × Appends (O.held out.old) (O.held out.new) written))) }
    // Where memory was wanting it isn't the whole.
    ensures short { IsErrOf result Halt.NoMemory → IfSome (S.left cnf.old) (λ text.
        IfSome (C.left proof.old) (λ bytes. (written rest : List ℕ) ×
        ((lrat_outcome text bytes).text ≡ written ++ rest) × (rest ≢ [])
        × Appends (O.held out.old) (O.held out.new) written)) }
    // Beside a text that has a fault the proof isn't read.
    ensures unread { IfOk result (λ ending. ending ≡ Ending.Faulty → proof.new ≡ proof.old) }

    // Where the others come from.
    ensures read { IsErrOf result Halt.Read → Rose (S.faults cnf.old) (S.faults cnf.new)
        ⊎ Rose (C.faults proof.old) (C.faults proof.new) }
    ensures limit { IsErrOf result Halt.ReadLimit →
        MetLimit S.read_gives (S.left cnf.old) cnf.old cnf.new
        ⊎ MetLimit C.read_gives (C.left proof.old) proof.old proof.new }
    ensures write { IsErrOf result Halt.Write → Rose (O.faults out.old) (O.faults out.new) }

    // What stays.
    ensures cnf_count { S.faults cnf.old ≤ S.faults cnf.new }
    ensures proof_count { C.faults proof.old ≤ C.faults proof.new }
    ensures out_count { O.faults out.old ≤ O.faults out.new }
{
    let checked = check_texts(alloc, cnf, proof)?;
    let text = text_of(alloc, checked)?;
    put_all(out, &text)?;
    Ok(ending_of(checked))
}

// What a text and a proof come to.
fn check_texts<S: Source, C: Source>(
    alloc: Global,
    cnf: &mut S,
    proof: &mut C,
) -> Result<Checked, Halt>
    ensures verdict { IfOk result (λ checked. IfSome (S.left cnf.old) (λ text.
        IfSome (C.left proof.old) (λ bytes.
        judged_beside (dimacs_of text) bytes ≡ verdict_of checked))) }
    ensures unread { IfOk result (λ checked. OnFault checked (proof.new ≡ proof.old)) }
    ensures read { IsErrOf result Halt.Read → Rose (S.faults cnf.old) (S.faults cnf.new)
        ⊎ Rose (C.faults proof.old) (C.faults proof.new) }
    ensures limit { IsErrOf result Halt.ReadLimit →
        MetLimit S.read_gives (S.left cnf.old) cnf.old cnf.new
        ⊎ MetLimit C.read_gives (C.left proof.old) proof.old proof.new }
    ensures no_write { IsErrOf result Halt.Write → ⊥ }
    ensures cnf_count { S.faults cnf.old ≤ S.faults cnf.new }
    ensures proof_count { C.faults proof.old ≤ C.faults proof.new }
{
    match read_dimacs(alloc, cnf) {
        Ok(dimacs) => Ok(Checked::Judged(judge_beside(alloc, dimacs, proof)?)),
        Err(DimacsFault::At { place, kind }) => Ok(Checked::Faulty { place, kind }),
        Err(DimacsFault::ReadFault) => Err(Halt::Read),
        Err(DimacsFault::ReadLimit) => Err(Halt::ReadLimit),
        Err(DimacsFault::NoMemory) => Err(Halt::NoMemory),
    }
}

// The judgement of a proof beside a text's clauses.
fn judge_beside<C: Source>(alloc: Global, cnf: Dimacs, proof: &mut C) -> Result<Judged, Halt>
    ensures judged { IfOk result (λ end. IfSome (C.left proof.old) (λ bytes.
        judged_proof cnf.clauses (all_lines bytes) ≡ judgement_of end)) }
    ensures read { IsErrOf result Halt.Read → Rose (C.faults proof.old) (C.faults proof.new) }
    ensures limit { IsErrOf result Halt.ReadLimit →
        MetLimit C.read_gives (C.left proof.old) proof.old proof.new }
    ensures no_write { IsErrOf result Halt.Write → ⊥ }
    ensures telling { TellsAsBefore (C.left proof.old) (C.left proof.new) }
    ensures count { C.faults proof.old ≤ C.faults proof.new }
{
    let mut checker = checker_of(alloc, cnf)?;
    judge(alloc, &mut checker, proof)
}

// What is written.
fn text_of(alloc: Global, checked: Checked) -> Result<Vec<u8>, AllocError>
    ensures { IfOk result (λ text. text.items ≡ ending_text (verdict_of checked)) }
{
    match checked {
        Checked::Faulty { place, kind } => refusal(alloc, place, fault_word(kind)),
        Checked::Judged(judged) => judgement_line(alloc, judged),
    }
}

// The line of a judgement.
fn judgement_line(alloc: Global, judged: Judged) -> Result<Vec<u8>, AllocError>
    ensures { IfOk result (λ line. line.items ≡ ending_text (judgement_of judged)) }
{
    match judged {
        Judged::Accepted => Vec::from_slice(alloc, b"accepted\n"),
        Judged::Refused { line, kind } => refused_line(alloc, line, kind),
    }
}

fn ending_of(checked: Checked) -> Ending
    ensures { result ≡ ending_of checked }
{
    match checked {
        Checked::Faulty { .. } => Ending::Faulty,
        Checked::Judged(Judged::Accepted) => Ending::Accepted,
        Checked::Judged(Judged::Refused { .. }) => Ending::Refused,
    }
}

// The name of a fault.
fn fault_word(kind: DimacsKind) -> &'static str
    ensures { result.now ≡ fault_word kind }
{
    match kind {
        DimacsKind::ProblemLine => "problem line",
        DimacsKind::Number => "number",
        DimacsKind::Unfinished => "unfinished",
    }
}
