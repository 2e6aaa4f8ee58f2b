//! What terms without quantifiers mean under words for their leaves.

ghost use Rattle.std.specs.Prelude.{◌≡◌};
ghost use Rattle.qv_words.specs.Word.{word_sort, word_value};
ghost use Rattle.qv_words.specs.Tree.{tree_sort, Apply, IsQuantifierFree};
ghost use Rattle.qv_words.specs.Sorted.{IsSorted};
ghost use Rattle.qv_words.specs.Values.{HasWords, MeansUnder};
ghost use Rattle.qv_terms.specs.View.{tree, trees};

use crate::term::Term;
use qv_words::{Op, Word, apply};

/// Words for constants, by index, and for variables, by level.
#[derive(Debug, Drop)]
pub struct Values {
    pub consts: Vec<Word>,
    pub levels: Vec<Word>,
}

// No operator takes more arguments.
const MOST_ARGUMENTS: usize = 3;

/// What a term without quantifiers means under these values.
#[cycle(eval)]
pub fn eval(term: &Term, values: &Values) -> Word
    requires sorted { IsSorted (tree term.now) }
    requires quantifier_free { IsQuantifierFree (tree term.now) }
    requires words { HasWords values.now.consts.items values.now.levels.items (tree term.now) }
    ensures sort { tree_sort (tree term.now) ≡ Some (word_sort result) }
    ensures value { MeansUnder values.now.consts.items values.now.levels.items
        (tree term.now) (word_value result) }
{
    match term {
        Term::Const { index, .. } => values.consts[*index as usize],
        Term::Var { level, .. } => values.levels[*level as usize],
        Term::Lit { word } => *word,
        Term::App { op, kids } => eval_application(*op, kids, values),
        Term::All { .. } | Term::Ex { .. } => unreachable!(),
    }
}

// What an application to these arguments means.
#[cycle(eval)]
fn eval_application(op: Op, args: &[Term], values: &Values) -> Word
    requires sorted { IsSorted (Apply op (trees args.now)) }
    requires quantifier_free { IsQuantifierFree (Apply op (trees args.now)) }
    requires words { HasWords values.now.consts.items values.now.levels.items
        (Apply op (trees args.now)) }
    ensures sort { tree_sort (Apply op (trees args.now)) ≡ Some (word_sort result) }
    ensures value { MeansUnder values.now.consts.items values.now.levels.items
        (Apply op (trees args.now)) (word_value result) }
{
    let mut words = [Word::truth(false); MOST_ARGUMENTS];
    for i in 0..args.len() {
        words[i] = eval(&args[i], values);
    }
    apply(op, &words[..args.len()])
}
