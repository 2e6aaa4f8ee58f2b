//! Cases of trails.

ghost use Rattle.qv_watch.specs.TrailState.{without_conflict};
ghost use Rattle.std.specs.Prelude.{◌≡◌, ◌≤◌, ◌↔◌, All, IsTrue, Some};

use crate::learning::{Learning, Part, learn, reasons_hold};
use crate::lits::{literal, say_all, say_sorted};
use qv_cases_rows::{Answer, Cases, Words};
use qv_cnf::Lit;
use qv_rup::Checker;
use qv_watch::{Propagated, Trail};
use std::alloc::Global;

// What stands on a trail.
enum View {
    Level,
    Order,
    Trues,
    Reasons,
}

// What a literal has on a trail.
enum Quality {
    Value,
    Level,
    Position,
    Reason,
}

enum Call {
    New,
    Room,
    Attach,
    Clauses,
    Detach,
    Assume,
    Back,
    Propagate,
    Analyse,
    Clause,
    Look(View),
    At(Quality),
    Learnt(Part),
}

static CALLS: [(&str, Call); 21] = [
    ("new", Call::New),
    ("room", Call::Room),
    ("attach", Call::Attach),
    ("clauses", Call::Clauses),
    ("detach", Call::Detach),
    ("assume", Call::Assume),
    ("back", Call::Back),
    ("propagate", Call::Propagate),
    ("analyse", Call::Analyse),
    ("clause", Call::Clause),
    ("level", Call::Look(View::Level)),
    ("order", Call::Look(View::Order)),
    ("trues", Call::Look(View::Trues)),
    ("reasons", Call::Look(View::Reasons)),
    ("value", Call::At(Quality::Value)),
    ("level-of", Call::At(Quality::Level)),
    ("position", Call::At(Quality::Position)),
    ("reason", Call::At(Quality::Reason)),
    ("learnt", Call::Learnt(Part::Lits)),
    ("learnt-level", Call::Learnt(Part::Level)),
    ("hints", Call::Learnt(Part::Hints)),
];

/// A trail, and a checker with the same clauses.
#[derive(Drop)]
pub(crate) struct TrailCase {
    alloc: Global,
    trail: Trail,
    checker: Checker,
    room: u32,
    next: u64,
    answer: Option<Propagated>,
    learning: Option<Learning>,
    ghost roomy: { trail.room ≡ room },
    ghost answered: { trail.answer ≡ answer },
}

impl TrailCase {
    pub(crate) fn new(alloc: Global) -> TrailCase {
        let trail = Trail::new(alloc);
        TrailCase {
            alloc,
            trail,
            checker: Checker::new(alloc),
            room: 0,
            next: 1,
            answer: None,
            learning: None,
        }
    }

    fn call(&mut self, call: &Call, words: &mut Words<'_>, out: &mut Answer) {
        match call {
            Call::New => self.renew(out),
            Call::Room => out.done(self.make_room(words.number())),
            Call::Attach => out.done(self.attach(words)),
            Call::Clauses => out.done(self.attach_all(words)),
            Call::Detach => out.done(self.detach(words.number())),
            Call::Assume => out.done(self.assume(words)),
            Call::Back => out.done(self.back_to(words.number())),
            Call::Propagate => self.propagate(out),
            Call::Analyse => self.analyse(out),
            Call::Look(view) => self.look(view, out),
            Call::Clause => self.clause(words.number(), out),
            Call::At(quality) => self.look_at(quality, words, out),
            Call::Learnt(part) => self.learnt(part, out),
        }
    }

    fn renew(&mut self, out: &mut Answer) {
        *self = TrailCase::new(self.alloc);
        out.say("ok");
    }

    fn make_room(&mut self, variables: u32) -> bool {
        if self.trail.room(variables).is_err() {
            return false;
        }
        self.room = self.room.max(variables);
        true
    }

    fn attach(&mut self, words: &mut Words<'_>) -> bool {
        let id = words.number();
        let lits = words.each(self.alloc, literal);
        words.are_read() && self.attach_clause(id, &lits)
    }

    // Under the ids that follow.
    fn attach_all(&mut self, words: &mut Words<'_>) -> bool {
        for lits in words.lists(self.alloc, literal) {
            let id = self.next;
            if !self.attach_clause(id, &lits) {
                return false;
            }
        }
        true
    }

    fn attach_clause(&mut self, id: u64, lits: &[Lit]) -> bool {
        let may = all_within(lits, self.room) && self.trail.level() == 0;
        if !may || self.trail.clause(id).is_some() || self.checker.original(id, lits).is_err() {
            return false;
        }
        self.next = id.saturating_add(1);
        if self.trail.attach(id, lits).is_err() {
            return false;
        }
        self.answer = None;
        true
    }

    fn detach(&mut self, id: u64) -> bool {
        if self.trail.clause(id).is_none() || !self.trail.order().is_empty() {
            return false;
        }
        self.trail.detach(id);
        self.answer = quiet_only(self.answer);
        true
    }

    fn assume(&mut self, words: &mut Words<'_>) -> bool {
        match literal(words.next()) {
            Some(lit) => self.assume_literal(lit),
            None => false,
        }
    }

    fn assume_literal(&mut self, lit: Lit) -> bool {
        let quiet = self.answer == Some(Propagated::Quiet);
        if !quiet || lit.variable() > self.room || self.trail.value(lit).is_some() {
            return false;
        }
        self.trail.assume(lit);
        self.answer = None;
        true
    }

    fn back_to(&mut self, level: u32) -> bool {
        if level > self.trail.level() {
            return false;
        }
        self.trail.back_to(level);
        self.answer = None;
        true
    }

    // A conflict names an attached clause whose literals are false.
    fn propagate(&mut self, out: &mut Answer) {
        let answer = self.trail.propagate();
        self.answer = Some(answer);
        out.say(match answer {
            Propagated::Quiet => "quiet",
            Propagated::Conflict { id } => conflict_word(&self.trail, id),
        });
    }

    fn analyse(&mut self, out: &mut Answer) {
        match self.answer {
            Some(Propagated::Conflict { id }) => self.learn_from(id, out),
            _ => out.refuse(),
        }
    }

    fn learn_from(&mut self, conflict: u64, out: &mut Answer)
        requires { self.old.answer ≡ Some (Propagated.Conflict conflict) }
    {
        self.learning = learn(
            self.alloc,
            &self.trail,
            &mut self.checker,
            conflict,
            self.next,
        );
        self.next = self.next.saturating_add(1);
        match &self.learning {
            Some(learning) => out.say(learning.word),
            None => out.refuse(),
        }
    }

    // What stands on the trail.
    fn look(&self, view: &View, out: &mut Answer) {
        let trail = &self.trail;
        match view {
            View::Level => out.show(trail.level()),
            View::Order => say_all(out, trail.order()),
            View::Trues => say_sorted(self.alloc, out, trail.order()),
            View::Reasons if reasons_hold(trail) => out.say("ok"),
            View::Reasons => out.say("wrong: a clause that wasn't unit"),
        }
    }

    fn clause(&self, id: u64, out: &mut Answer) {
        match self.trail.clause(id) {
            None => out.say("not attached"),
            Some(lits) => say_all(out, lits),
        }
    }

    fn look_at(&self, quality: &Quality, words: &mut Words<'_>, out: &mut Answer) {
        match literal(words.next()) {
            Some(lit) => say_quality(&self.trail, quality, lit, out),
            None => out.refuse(),
        }
    }

    // What was learnt last.
    fn learnt(&self, part: &Part, out: &mut Answer) {
        match &self.learning {
            Some(learning) => learning.tell(self.alloc, part, out),
            None => out.refuse(),
        }
    }
}

impl Cases for TrailCase {
    fn answer(&mut self, words: &mut Words<'_>, out: &mut Answer) {
        match words.pick(&CALLS) {
            Some(call) => self.call(call, words, out),
            None => out.refuse(),
        }
    }
}

fn conflict_word(trail: &Trail, id: u64) -> &'static str {
    match trail.clause(id) {
        Some(lits) if all_false(trail, lits) => "conflict",
        _ => "wrong: a conflict of no false clause",
    }
}

// What a literal has on the trail.
fn say_quality(trail: &Trail, quality: &Quality, lit: Lit, out: &mut Answer) {
    let value = trail.value(lit);
    match quality {
        Quality::Value => out.debug(value),
        Quality::Reason => match trail.reason(lit) {
            None => out.say("none"),
            Some(id) => out.show(id),
        },
        Quality::Level if value.is_some() => out.show(trail.level_of(lit)),
        Quality::Position if value.is_some() => out.show(trail.position(lit)),
        _ => out.refuse(),
    }
}

// What propagation answered, unless that was a conflict.
fn quiet_only(answer: Option<Propagated>) -> Option<Propagated>
    ensures { result ≡ without_conflict answer }
{
    match answer {
        Some(Propagated::Quiet) => Some(Propagated::Quiet),
        Some(Propagated::Conflict { .. }) => None,
        None => None,
    }
}

fn all_within(lits: &[Lit], room: u32) -> bool
    ensures { IsTrue result ↔ All (λ l. l.variable ≤ room) lits.now }
{
    lits.iter().all(|lit| lit.variable() <= room)
}

fn all_false(trail: &Trail, lits: &[Lit]) -> bool {
    lits.iter().all(|lit| trail.value(*lit) == Some(false))
}
