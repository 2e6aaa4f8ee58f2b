//! A clause list.

use crate::lits::{literal, say_all};
use qv_cases_rows::{Answer, Words};
use qv_cnf::ClauseList;
use std::alloc::Global;

enum Call {
    New,
    Add,
    May,
    Get,
    Remove,
    Cut,
}

static CALLS: [(&str, Call); 6] = [
    ("new", Call::New),
    ("add", Call::Add),
    ("may", Call::May),
    ("get", Call::Get),
    ("remove", Call::Remove),
    ("cut", Call::Cut),
];

/// A clause list that lines add to and take from.
#[derive(Drop)]
pub(crate) struct ListCase {
    alloc: Global,
    list: ClauseList,
}

impl ListCase {
    pub(crate) fn new(alloc: Global) -> ListCase {
        ListCase {
            alloc,
            list: ClauseList::new(alloc),
        }
    }

    /// Answers a line behind its first word.
    pub(crate) fn answer(&mut self, words: &mut Words<'_>, out: &mut Answer) {
        match words.pick(&CALLS) {
            Some(Call::New) => self.renew(out),
            Some(Call::Add) => self.add(words, out),
            Some(Call::May) => out.say(yes_or_no(self.list.may_add(words.number()))),
            Some(Call::Get) => self.get(words, out),
            Some(Call::Remove) => self.remove(words, out),
            Some(Call::Cut) => self.cut(words, out),
            None => out.refuse(),
        }
    }

    fn renew(&mut self, out: &mut Answer) {
        self.list = ClauseList::new(self.alloc);
        out.say("ok");
    }

    fn add(&mut self, words: &mut Words<'_>, out: &mut Answer) {
        let id = words.number();
        let lits = words.each(self.alloc, literal);
        if !words.are_read() {
            out.refuse();
        } else if self.list.may_add(id) {
            out.done(self.list.add(id, &lits).is_ok());
        } else {
            out.say("not above");
        }
    }

    fn remove(&mut self, words: &mut Words<'_>, out: &mut Answer) {
        self.list.remove(words.number());
        out.say("ok");
    }

    fn cut(&mut self, words: &mut Words<'_>, out: &mut Answer) {
        self.list.cut(words.number());
        out.say("ok");
    }

    fn get(&self, words: &mut Words<'_>, out: &mut Answer) {
        match self.list.get(words.number()) {
            None => out.say("not live"),
            Some(lits) => say_all(out, lits),
        }
    }
}

/// How a truth value is said.
pub(crate) fn yes_or_no(is_so: bool) -> &'static str {
    if is_so { "yes" } else { "no" }
}
