//! What a script keeps of a section's answer.

ghost use Rattle.std.specs.Prelude.{◌≡◌, List, All, Some, IfOk};
ghost use Rattle.qv_words.specs.Sort.{IsLawful};
ghost use Rattle.qv_words.specs.Tree.{Tree};
ghost use Rattle.qv_script_defs.specs.State.{State};
ghost use Rattle.qv_script_stack.specs.Held.{IsScriptIn, HaveSorts, answer_of};
ghost use Rattle.qv_check_defs.specs.Beside.{last_of};
ghost use Rattle.qv_check_script.specs.Turns.{AreZeros};

use qv_script::{Declared, Last, Script, SpentWord};
use qv_words::{Answer, Word};
use std::alloc::{AllocError, Global};

//// What a script keeps of an answer, with values that nobody prints.
pub fn last_of(alloc: Global, script: &Script, answer: Answer) -> Result<Last, AllocError>
    requires { (trees : List Tree) × (s : State) × IsScriptIn trees script.now s }
    ensures last { IfOk result (λ last. (trees : List Tree) (s : State) →
        IsScriptIn trees script.now s → answer_of last ≡ last_of s answer) }
    ensures sorts { IfOk result (λ last. HaveSorts script.now.constants (Some last)) }
{
    match answer {
        Answer::Sat => {
            let values = zeros(alloc, script.constants())?;
            Ok(Last::Sat { values })
        }
        Answer::Unsat => Ok(Last::Unsat),
        Answer::Unknown => Ok(Last::Unknown {
            spent: SpentWord::Conflicts,
        }),
    }
}

// The value 0 for each constant.
fn zeros(alloc: Global, constants: &[Declared]) -> Result<Vec<Word>, AllocError>
    requires { All (λ own. IsLawful own.sort) constants.now }
    ensures { IfOk result (λ words. AreZeros constants.now words.items) }
{
    let mut words = Vec::new(alloc);
    'constants: for own in constants {
        words.push(Word::new(own.sort, 0).unwrap())?;
    }
    Ok(words)
}
