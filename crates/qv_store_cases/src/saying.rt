//! Numbers and boxed terms, as they are printed: each argument before its operator.

use qv_cases_rows::Answer;
use qv_cases_terms::{say_binder, say_leaf, say_operator, say_word};
use qv_terms::Term;

/// Says a number, with this before it.
pub fn say_number(out: &mut Answer, before: char, number: u64) {
    out.put(before);
    out.show(number);
}

/// Says a boxed term.
#[cycle(boxed)]
pub fn say_boxed(out: &mut Answer, term: &Term) {
    match term {
        Term::Const { index, sort } => say_leaf(out, 'c', *index, *sort),
        Term::Var { level, sort } => say_leaf(out, 'v', *level, *sort),
        Term::Lit { word } => say_word(out, *word),
        Term::App { op, kids } => {
            say_all_boxed(out, kids);
            say_operator(out, *op);
        }
        Term::All { level, sort, body } => {
            say_boxed(out, body);
            out.put(' ');
            say_binder(out, "All:", *level, *sort);
        }
        Term::Ex { level, sort, body } => {
            say_boxed(out, body);
            out.put(' ');
            say_binder(out, "Ex:", *level, *sort);
        }
    }
}

// Boxed terms, each with a blank behind.
#[cycle(boxed)]
fn say_all_boxed(out: &mut Answer, terms: &[Term]) {
    for term in terms {
        say_boxed(out, term);
        out.put(' ');
    }
}
