//! Names and terms, as cases write them.

use qv_cases_rows::Answer;
use qv_cases_terms::{say_binder, say_leaf, say_operator, say_word};
use qv_sorts::name_of;
use qv_terms::Term;
use qv_words::Op;
use std::str;

/// Says an operator's name.
pub fn name(out: &mut Answer, op: Op) {
    out.give(str::from_utf8(name_of(op)).ok());
}

/// Says a term.
#[cycle(term)]
pub fn term(out: &mut Answer, term: &Term) {
    match term {
        Term::Const { index, sort } => say_leaf(out, 'c', *index, *sort),
        Term::Var { level, sort } => say_leaf(out, 'v', *level, *sort),
        Term::Lit { word } => say_word(out, *word),
        Term::App { op, kids } => {
            out.say("(");
            say_operator(out, *op);
            terms(out, kids);
            out.say(")");
        }
        Term::All { level, sort, body } => {
            say_binder(out, "(forall:", *level, *sort);
            out.say(" ");
            self::term(out, body);
            out.say(")");
        }
        Term::Ex { level, sort, body } => {
            say_binder(out, "(exists:", *level, *sort);
            out.say(" ");
            self::term(out, body);
            out.say(")");
        }
    }
}

// Says terms, each behind a blank.
#[cycle(term)]
fn terms(out: &mut Answer, terms: &[Term]) {
    for term in terms {
        out.say(" ");
        self::term(out, term);
    }
}
