//! Steps as they are found, and what is equal by them. A checker looks at them later.

use crate::literals::signed;
use crate::local::Local;
use qv_cnf::{ClauseList, Lit, Step};
use std::alloc::{AllocError, Global};

// No chain of faces is followed further.
const LONGEST: usize = 64;

// How often two cases are tried for each variable.
const TRIES: usize = 64;

/// A literal that a variable is equal to, and the ids of the clauses that say so: the variable
/// implies the literal, and is implied by it.
#[derive(Clone, Copy)]
pub struct Face {
    pub lit: Lit,
    pub forth: u64,
    pub back: u64,
}

/// The clauses of a base, steps behind them, the face of each variable that has one, and the
/// clauses that are near: those by which the next steps are sought.
#[derive(Drop)]
pub struct Draft<'a> {
    alloc: Global,
    base: &'a ClauseList,
    // The id of the first step.
    first: u64,
    steps: Vec<Step>,
    faces: Vec<Option<Face>>,
    // A literal that a clause of its own says is true, with the clause's id: constants are seen by
    // it.
    truth: Option<(Lit, u64)>,
    local: Local,
    // How often two cases may still be tried.
    tries: usize,
}

impl<'a> Draft<'a> {
    /// With no step. The ids of steps begin here.
    pub fn new(alloc: Global, base: &'a ClauseList, first: u64) -> Draft<'a> {
        Draft {
            alloc,
            base,
            first,
            steps: Vec::new(alloc),
            faces: Vec::new(alloc),
            truth: None,
            local: Local::new(alloc),
            tries: 0,
        }
    }

    /// Makes room for the variables below this one.
    pub fn make_room(&mut self, variables: usize) -> Result<(), AllocError> {
        self.faces.resize(variables, None)?;
        self.local.make_room(variables)?;
        self.tries = variables.saturating_mul(TRIES);
        Ok(())
    }

    /// The steps, and the faces.
    pub fn finish(self) -> (Vec<Step>, Vec<Option<Face>>) {
        let Draft {
            alloc: _,
            base: _,
            first: _,
            steps,
            faces,
            truth: _,
            local: _,
            tries: _,
        } = self;
        (steps, faces)
    }

    /// The clause of that id says what is true.
    pub fn set_truth(&mut self, lit: Lit, id: u64) {
        self.truth = Some((lit, id));
    }

    /// The literal that a clause of its own says is true, if there is one.
    pub fn truth(&self) -> Option<Lit> {
        match self.truth {
            Some((lit, _)) => Some(lit),
            None => None,
        }
    }

    /// Whether the literal is known, and its value.
    pub fn constant(&self, lit: Lit) -> Option<bool> {
        let truth = self.truth()?;
        if truth.variable() == lit.variable() {
            Some(truth == lit)
        } else {
            None
        }
    }

    /// The id of the next step.
    pub fn next(&self) -> u64 {
        self.first.wrapping_add(self.steps.len() as u64)
    }

    /// The literals of the clause of that id.
    pub fn clause(&self, id: u64) -> Option<&[Lit]> {
        if id < self.first {
            return self.base.get(id);
        }
        added(&self.steps, id - self.first)
    }

    /// What a variable is equal to, if it has a face.
    pub fn face(&self, variable: u32) -> Option<Face> {
        match self.faces.get(variable as usize) {
            Some(face) => *face,
            None => None,
        }
    }

    /// Nothing is near but what is true.
    pub fn begin(&mut self) -> Result<(), AllocError> {
        self.local.clear();
        match self.truth {
            Some((lit, id)) => self.local.push(id, &[lit]),
            None => Ok(()),
        }
    }

    /// The clause of that id is near.
    pub fn bring(&mut self, id: u64) -> Result<(), AllocError> {
        if id < self.first {
            return match self.base.get(id) {
                Some(lits) => self.local.push(id, lits),
                None => Ok(()),
            };
        }
        match added(&self.steps, id - self.first) {
            Some(lits) => self.local.push(id, lits),
            None => Ok(()),
        }
    }

    /// The clauses are near that say what a variable is equal to, if it has a face.
    pub fn bring_face(&mut self, variable: u32) -> Result<(), AllocError> {
        match self.face(variable) {
            Some(face) => {
                self.bring(face.forth)?;
                self.bring(face.back)
            }
            None => Ok(()),
        }
    }

    // Adds a clause, if it follows from those near by unit propagation. Then it's near, too.
    fn add(&mut self, lits: &[Lit]) -> Result<Option<u64>, AllocError> {
        if !self.local.finds(lits)? {
            return Ok(None);
        }
        let id = self.next();
        self.steps
            .push(addition(self.alloc, id, lits, self.local.hints())?)?;
        self.local.push(id, lits)?;
        Ok(Some(id))
    }

    // Adds the clause with one more literal, if that follows.
    fn add_case(&mut self, lits: &[Lit], case: Lit) -> Result<bool, AllocError> {
        let lits = with(self.alloc, lits, case)?;
        Ok(self.add(&lits)?.is_some())
    }

    // Whether the clause follows by the two cases of a literal. After many tries no more is found
    // so.
    fn splits(&mut self, lits: &[Lit], by: Lit) -> Result<bool, AllocError> {
        if self.tries == 0 {
            return Ok(false);
        }
        self.tries -= 1;
        Ok(self.local.finds_with(lits, by)? && self.local.finds_with(lits, by.negated())?)
    }

    /// Adds a clause that follows from those near: by unit propagation, or by the cases of one or
    /// of two of these literals. The answer is its id.
    pub fn prove(&mut self, lits: &[Lit], by: &[Lit]) -> Result<Option<u64>, AllocError> {
        let at_once = self.add(lits)?;
        if at_once.is_some() {
            return Ok(at_once);
        }
        if self.lay_one(lits, by)? || self.lay_three(lits, by)? {
            return self.add(lits);
        }
        Ok(None)
    }

    // Adds what a clause follows by that has two cases.
    fn lay_one(&mut self, lits: &[Lit], by: &[Lit]) -> Result<bool, AllocError> {
        for lit in by {
            if self.splits(lits, *lit)? {
                return self.add_case(lits, *lit);
            }
        }
        Ok(false)
    }

    // The same where there are four.
    fn lay_three(&mut self, lits: &[Lit], by: &[Lit]) -> Result<bool, AllocError> {
        for first in by {
            if self.lay_cases(lits, *first, by)? {
                return Ok(true);
            }
        }
        Ok(false)
    }

    fn lay_cases(&mut self, lits: &[Lit], first: Lit, by: &[Lit]) -> Result<bool, AllocError> {
        let case = with(self.alloc, lits, first)?;
        let other = with(self.alloc, lits, first.negated())?;
        self.lay_pair(&case, &other, by)
    }

    // Adds a clause, and what another follows by, if both have two cases of one literal.
    fn lay_pair(&mut self, case: &[Lit], other: &[Lit], by: &[Lit]) -> Result<bool, AllocError> {
        for lit in by {
            if self.splits(case, *lit)? && self.splits(other, *lit)? {
                self.add_case(case, *lit)?;
                self.add(case)?;
                return self.add_case(other, *lit);
            }
        }
        Ok(false)
    }

    /// Makes two literals equal that are so by the clauses near: one's variable gets the other as
    /// its face. Whether that is shown.
    pub fn merge(&mut self, x: Lit, y: Lit, by: &[Lit]) -> Result<bool, AllocError> {
        if x == y {
            return Ok(false);
        }
        if x == y.negated() {
            return self.contradict(x, by);
        }
        if self.is_before(x, y) {
            self.equate(y, x, by)
        } else {
            self.equate(x, y, by)
        }
    }

    // The second literal becomes what stands for the first, if both ways follow.
    fn equate(&mut self, x: Lit, y: Lit, by: &[Lit]) -> Result<bool, AllocError> {
        let y = signed(y, x.is_positive());
        let x = signed(x, x.is_positive());
        let Some(forth) = self.prove(&[x.negated(), y], by)? else {
            return Ok(false);
        };
        let Some(back) = self.prove(&[x, y.negated()], by)? else {
            return Ok(false);
        };
        let face = Face {
            lit: y,
            forth,
            back,
        };
        self.set_face(x.variable(), face);
        Ok(true)
    }

    fn set_face(&mut self, variable: u32, face: Face) {
        if let Some(place) = self.faces.get_mut(variable as usize) {
            *place = Some(face);
        }
    }

    // Whether the first literal is to stand for the second.
    fn is_before(&self, x: Lit, y: Lit) -> bool {
        if self.constant(x).is_some() {
            true
        } else if self.constant(y).is_some() {
            false
        } else {
            x.variable() < y.variable()
        }
    }

    // A literal is equal to its negation: no value is left.
    fn contradict(&mut self, x: Lit, by: &[Lit]) -> Result<bool, AllocError> {
        self.prove(&[x], by)?;
        self.prove(&[x.negated()], by)?;
        Ok(self.prove(&[], by)?.is_some())
    }

    /// What stands for a literal. Its face is then that, if it has one.
    pub fn root(&mut self, lit: Lit) -> Result<Lit, AllocError> {
        let Some(face) = self.face(lit.variable()) else {
            return Ok(lit);
        };
        let near = signed(face.lit, lit.is_positive());
        if self.face(near.variable()).is_none() {
            return Ok(near);
        }
        let mut links = Vec::new(self.alloc);
        let end = self.follow(lit, &mut links)?;
        self.shorten_all(&links, end)?;
        Ok(end)
    }

    // The end of the chain of faces from a literal, and the literals before it.
    fn follow(&self, lit: Lit, links: &mut Vec<Lit>) -> Result<Lit, AllocError> {
        let mut at = lit;
        for _link in 0..LONGEST {
            let Some(face) = self.face(at.variable()) else {
                return Ok(at);
            };
            links.push(at)?;
            at = signed(face.lit, at.is_positive());
        }
        Ok(at)
    }

    // From the last literal of a chain to the first.
    fn shorten_all(&mut self, links: &[Lit], end: Lit) -> Result<(), AllocError> {
        for place in (0..links.len()).rev() {
            if let Some(link) = links.get(place) {
                self.shorten(*link, end)?;
            }
        }
        Ok(())
    }

    // The face of a literal's variable has the end as its face: so the variable gets that one.
    fn shorten(&mut self, link: Lit, end: Lit) -> Result<(), AllocError> {
        let Some(face) = self.face(link.variable()) else {
            return Ok(());
        };
        if face.lit.variable() == end.variable() {
            return Ok(());
        }
        self.begin()?;
        self.bring_face(link.variable())?;
        self.bring_face(face.lit.variable())?;
        self.merge(link, end, &[])?;
        Ok(())
    }
}

// The literals of the clause that the step at a place adds.
fn added(steps: &[Step], place: u64) -> Option<&[Lit]> {
    match steps.get(place as usize) {
        Some(Step::Add { lits, .. }) => Some(lits),
        _ => None,
    }
}

// The literals, and one more behind them.
fn with(alloc: Global, lits: &[Lit], more: Lit) -> Result<Vec<Lit>, AllocError> {
    let mut all = Vec::with_capacity(alloc, lits.len().saturating_add(1))?;
    all.extend_from_slice(lits)?;
    all.push(more)?;
    Ok(all)
}

fn addition(alloc: Global, id: u64, lits: &[Lit], hints: &[i64]) -> Result<Step, AllocError> {
    let lits = Vec::from_slice(alloc, lits)?;
    let hints = Vec::from_slice(alloc, hints)?;
    Ok(Step::Add { id, lits, hints })
}
