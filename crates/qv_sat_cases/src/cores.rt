//! Cases of cores.

use crate::lits::{literal, say_all, say_sorted};
use crate::sessions::{Asked, ENOUGH, Session};
use qv_cases_rows::{Answer, Cases, Words};
use qv_cnf::Lit;
use qv_sat::Outcome;
use std::alloc::Global;

/// What is told of the last answer.
pub(crate) enum Fact {
    Count,
    Model,
    Failed,
}

// What is asked of a core.
enum Question {
    Patient,
    Tight,
    Models,
}

enum Call {
    New,
    Next,
    Add,
    Aside,
    Ask,
    Answer(Question),
    Last(Fact),
}

static CALLS: [(&str, Call); 11] = [
    ("new", Call::New),
    ("next", Call::Next),
    ("add", Call::Add),
    ("aside", Call::Aside),
    ("ask", Call::Ask),
    ("patient", Call::Answer(Question::Patient)),
    ("tight", Call::Answer(Question::Tight)),
    ("models", Call::Answer(Question::Models)),
    ("count", Call::Last(Fact::Count)),
    ("model", Call::Last(Fact::Model)),
    ("failed", Call::Last(Fact::Failed)),
];

/// A session, and what its core answered last.
#[derive(Drop)]
pub(crate) struct CoreCase {
    alloc: Global,
    // The session, once it was wanted.
    sessions: Vec<Session>,
    // The answer, if there is one.
    last: Vec<Asked>,
}

impl CoreCase {
    pub(crate) fn new(alloc: Global) -> CoreCase {
        CoreCase {
            alloc,
            sessions: Vec::new(alloc),
            last: Vec::new(alloc),
        }
    }

    // The session, which is a new one if there is none.
    fn session(&mut self) -> Option<&mut Session> {
        if self.sessions.is_empty() && self.sessions.push(Session::new(self.alloc)).is_err() {
            return None;
        }
        self.sessions.last_mut()
    }

    fn renew(&mut self, out: &mut Answer) {
        self.sessions.clear();
        out.say("ok");
    }

    fn go_on_at(&mut self, id: u64, out: &mut Answer) {
        match self.session() {
            Some(session) => out.done(session.go_on_at(id)),
            None => out.refuse(),
        }
    }

    fn add(&mut self, words: &mut Words<'_>, out: &mut Answer) {
        let clauses = words.lists(self.alloc, literal);
        match self.session() {
            Some(session) => add_all(session, clauses, out),
            None => out.refuse(),
        }
    }

    fn set_aside(&mut self, words: &mut Words<'_>, out: &mut Answer) {
        let clauses = words.lists(self.alloc, literal);
        match self.session() {
            Some(session) => set_all_aside(session, clauses, out),
            None => out.refuse(),
        }
    }

    fn ask(&mut self, words: &mut Words<'_>, out: &mut Answer) {
        let limit = words.number();
        let assumptions = words.each(self.alloc, literal);
        let asked = match self.session() {
            Some(session) => ask_under(session, &assumptions, limit, out),
            None => None,
        };
        replace(&mut self.last, asked, out);
    }

    fn answer_to(&mut self, question: &Question, out: &mut Answer) {
        match self.session() {
            Some(session) => answer_of(session, question, out),
            None => out.refuse(),
        }
    }
}

impl Cases for CoreCase {
    fn answer(&mut self, words: &mut Words<'_>, out: &mut Answer) {
        match words.pick(&CALLS) {
            Some(Call::New) => self.renew(out),
            Some(Call::Next) => self.go_on_at(words.number(), out),
            Some(Call::Add) => self.add(words, out),
            Some(Call::Aside) => self.set_aside(words, out),
            Some(Call::Ask) => self.ask(words, out),
            Some(Call::Answer(question)) => self.answer_to(question, out),
            Some(Call::Last(fact)) => recall(self.alloc, self.last.last(), fact, out),
            None => out.refuse(),
        }
    }
}

fn add_all(session: &mut Session, clauses: Vec<Vec<Lit>>, out: &mut Answer) {
    for lits in clauses {
        if !session.add(lits) {
            out.refuse();
        }
    }
    out.show(session.given());
    out.say(" clauses");
}

fn set_all_aside(session: &mut Session, clauses: Vec<Vec<Lit>>, out: &mut Answer) {
    for lits in clauses {
        if !session.set_aside(lits) {
            out.refuse();
        }
    }
    out.show(session.given());
    out.say(" clauses");
}

/// Keeps an answer in the place of those before.
pub(crate) fn replace(last: &mut Vec<Asked>, asked: Option<Asked>, out: &mut Answer) {
    last.clear();
    let is_kept = match asked {
        Some(asked) => last.push(asked).is_ok(),
        None => false,
    };
    if !is_kept {
        out.refuse();
    }
}

fn ask_under(
    session: &mut Session,
    assumptions: &[Lit],
    limit: u64,
    out: &mut Answer,
) -> Option<Asked> {
    let asked = session.ask(assumptions, limit);
    match &asked {
        Some(asked) => out.give(judged(session, asked)),
        None => out.refuse(),
    }
    asked
}

// An answer in a word. The literals of a core are asked about as clauses.
fn judged(session: &Session, asked: &Asked) -> Option<&'static str> {
    match &asked.answer {
        Ok(Outcome::Unsat { core }) => judged_core(session, core, asked.word),
        _ => Some(asked.word),
    }
}

fn judged_core(session: &Session, core: &[Lit], word: &'static str) -> Option<&'static str> {
    let (again, _) = session.ask_again(core, ENOUGH)?;
    if again == "unsat" {
        Some(word)
    } else {
        Some("wrong: a core that has a model")
    }
}

fn answer_of(session: &mut Session, question: &Question, out: &mut Answer) {
    match question {
        Question::Patient => out.give(patient(session)),
        Question::Tight => out.give(tight(session)),
        Question::Models => count_models(session, out),
    }
}

// Asks under ever greater limits until one isn't spent.
fn patient(session: &mut Session) -> Option<&'static str> {
    for limit in 1..1000 {
        let (word, _) = session.ask_plainly(limit)?;
        if word != "spent" {
            return Some(word);
        }
    }
    Some("spent")
}

// Whether the conflicts of a refutation are just enough for it.
fn tight(session: &mut Session) -> Option<&'static str> {
    let (word, count) = session.ask_plainly(ENOUGH)?;
    if word != "unsat" || count == 0 {
        return Some(word);
    }
    let enough = session.ask_again(&[], count)?;
    let (fewer, _) = session.ask_again(&[], count - 1)?;
    if enough.0 == "unsat" && enough.1 == count && fewer == "spent" {
        Some("tight")
    } else {
        Some("wrong: other conflicts")
    }
}

// Asks for models until there is none, and shuts out each by a further clause: how many.
fn count_models(session: &mut Session, out: &mut Answer) {
    for count in 0u32..1000 {
        match has_one_more(session) {
            Some(true) => {}
            Some(false) => {
                out.show(count);
                return;
            }
            None => break,
        }
    }
    out.refuse();
}

// Whether there is a further model.
fn has_one_more(session: &mut Session) -> Option<bool> {
    let asked = session.ask(&[], ENOUGH)?;
    shuts_out(session, &asked)
}

// Shuts out a model that was found. Whether there was one.
fn shuts_out(session: &mut Session, asked: &Asked) -> Option<bool> {
    match &asked.answer {
        Ok(Outcome::Found(values)) if asked.word == "found" => shut_out(session, values),
        Ok(Outcome::Unsat { .. }) if asked.word == "unsat" => Some(false),
        _ => None,
    }
}

fn shut_out(session: &mut Session, values: &[bool]) -> Option<bool> {
    let others = named(session.alloc(), values, false)?;
    session.add(others).then_some(true)
}

// The literals of the variables from 1 on that are true under the values, or false.
fn named(alloc: Global, values: &[bool], truth: bool) -> Option<Vec<Lit>> {
    let mut lits = Vec::new(alloc);
    let mut variable = 0i32;
    for value in values {
        variable = variable.checked_add(1)?;
        let number = if *value == truth { variable } else { -variable };
        if !push_literal(&mut lits, Lit::new(number)) {
            return None;
        }
    }
    Some(lits)
}

fn push_literal(lits: &mut Vec<Lit>, lit: Option<Lit>) -> bool {
    match lit {
        Some(lit) => lits.push(lit).is_ok(),
        None => false,
    }
}

/// Says what was answered last, by one of its words.
pub(crate) fn recall(alloc: Global, last: Option<&Asked>, fact: &Fact, out: &mut Answer) {
    match last {
        Some(last) => say_fact(alloc, last, fact, out),
        None => out.refuse(),
    }
}

fn say_fact(alloc: Global, last: &Asked, fact: &Fact, out: &mut Answer) {
    match (fact, &last.answer) {
        (Fact::Count, _) => out.show(last.count),
        (Fact::Model, Ok(Outcome::Found(values))) => say_model(alloc, values, out),
        (Fact::Failed, Ok(Outcome::Unsat { core })) => say_sorted(alloc, out, core),
        _ => out.refuse(),
    }
}

fn say_model(alloc: Global, values: &[bool], out: &mut Answer) {
    match named(alloc, values, true) {
        Some(lits) => say_all(out, &lits),
        None => out.refuse(),
    }
}
