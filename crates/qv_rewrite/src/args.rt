//! The arguments of an application, and what a rule makes of it.

use qv_store::Id;
use qv_words::Word;

// The arguments of an application. No operator takes more than three.
#[derive(Clone, Copy)]
pub(crate) enum Args {
    One(Id),
    Two(Id, Id),
    Three(Id, Id, Id),
}

// What a rule makes: a term that is there, or a literal.
#[derive(Clone, Copy)]
pub(crate) enum Made {
    Term(Id),
    Value(Word),
}
