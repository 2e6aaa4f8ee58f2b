//! The clauses that are to be searched: those of the gates that the other clauses depend on, over
//! what stands for their variables.

use crate::nodes::Node;
use crate::search::Search;
use qv_cnf::Lit;
use qv_gates_parts::{Cube, Form, cover};
use std::alloc::{AllocError, Global};

// Clauses of no more literals are searched for equal and opposite ones.
const FEW: usize = 64;

// Literals of longer clauses stay as they are.
const WIDE: usize = 24;

// So many literals are looked at for one clause.
const ROUNDS: u32 = 64;

// Which variables occur, and the ids of clauses.
#[derive(Drop)]
struct Kept {
    occurs: Vec<bool>,
    ids: Vec<u64>,
}

impl Kept {
    fn new(alloc: Global) -> Kept {
        Kept {
            occurs: Vec::new(alloc),
            ids: Vec::new(alloc),
        }
    }

    fn note(&mut self, variable: u32) {
        if let Some(place) = self.occurs.get_mut(variable as usize) {
            *place = true;
        }
    }

    fn note_all(&mut self, lits: &[Lit]) {
        for lit in lits {
            self.note(lit.variable());
        }
    }

    fn has(&self, variable: u32) -> bool {
        matches!(self.occurs.get(variable as usize), Some(true))
    }

    fn push(&mut self, id: u64) -> Result<(), AllocError> {
        Ok(self.ids.push(id)?)
    }
}

impl Search<'_> {
    /// Their ids, which rise. The variables are below this one.
    pub(crate) fn keep(&mut self, variables: usize) -> Result<Vec<u64>, AllocError> {
        let mut kept = Kept::new(self.alloc);
        self.keep_all(variables, &mut kept)?;
        let Kept { occurs, ids } = kept;
        self.occurs = occurs;
        Ok(ids)
    }

    /// For the clause of each id, up to the last step's, a variable of it that stands in no clause
    /// which is to be searched, or 0 where there is none.
    pub fn guards(&self) -> Result<Vec<u32>, AllocError> {
        let mut guards = Vec::new(self.alloc);
        for id in 0..self.draft.next() {
            guards.push(self.guard(id))?;
        }
        Ok(guards)
    }

    fn guard(&self, id: u64) -> u32 {
        let Some(lits) = self.draft.clause(id) else {
            return 0;
        };
        for lit in lits {
            if !self.has(lit.variable()) {
                return lit.variable();
            }
        }
        0
    }

    /// Whether a variable stands in a clause that is to be searched.
    pub(crate) fn has(&self, variable: u32) -> bool {
        matches!(self.occurs.get(variable as usize), Some(true))
    }

    fn keep_all(&mut self, variables: usize, kept: &mut Kept) -> Result<(), AllocError> {
        kept.occurs.resize(variables, false)?;
        self.keep_others(kept)?;
        self.keep_gates(kept)?;
        kept.ids.sort()
    }

    fn keep_others(&mut self, kept: &mut Kept) -> Result<(), AllocError> {
        for place in 0..self.nodes.others().len() {
            if let Some(id) = self.nodes.others().get(place).copied() {
                self.keep_other(id, kept)?;
            }
        }
        Ok(())
    }

    // From the last gate to the first.
    fn keep_gates(&mut self, kept: &mut Kept) -> Result<(), AllocError> {
        for place in (0..self.nodes.len()).rev() {
            if let Some(node) = self.nodes.get(place) {
                if self.is_kept(&node, kept) {
                    self.keep_gate(&node, kept)?;
                }
            }
        }
        Ok(())
    }

    // Whether the gate's output occurs, or is known by more than the gates.
    fn is_kept(&self, node: &Node, kept: &Kept) -> bool {
        if self.draft.face(node.output.variable()).is_some() {
            !node.is_implied
        } else {
            kept.has(node.output.variable())
        }
    }

    // A clause over what stands for its literals.
    fn keep_other(&mut self, id: u64, kept: &mut Kept) -> Result<(), AllocError> {
        let lits = match self.draft.clause(id) {
            Some(lits) => Vec::from_slice(self.alloc, lits)?,
            None => return Ok(()),
        };
        if self.says_truth(&lits) {
            kept.note_all(&lits);
            return kept.push(id);
        }
        self.keep_lits(id, &lits, kept)
    }

    fn keep_lits(&mut self, id: u64, lits: &[Lit], kept: &mut Kept) -> Result<(), AllocError> {
        let Some(mut new) = self.over_roots(lits)? else {
            return Ok(());
        };
        self.bring_faces(id, lits)?;
        if !self.open_all(&mut new)? {
            return Ok(());
        }
        if new.as_slice() == lits {
            kept.note_all(&new);
            return kept.push(id);
        }
        self.keep_proved(&new, kept)
    }

    // The clause of that id is near, and what stands for its literals.
    fn bring_faces(&mut self, id: u64, lits: &[Lit]) -> Result<(), AllocError> {
        self.draft.begin()?;
        self.draft.bring(id)?;
        for lit in lits {
            self.draft.bring_face(lit.variable())?;
        }
        Ok(())
    }

    // A clause that follows by unit propagation from what is near.
    fn keep_proved(&mut self, lits: &[Lit], kept: &mut Kept) -> Result<(), AllocError> {
        kept.note_all(lits);
        match self.draft.prove(lits, &[])? {
            Some(id) => kept.push(id),
            None => Ok(()),
        }
    }

    // Whether the clause says what is true, by which all constants are seen.
    fn says_truth(&self, lits: &[Lit]) -> bool {
        match lits {
            [lit] => self.draft.truth() == Some(*lit),
            _ => false,
        }
    }

    // What stands for the literals, without those that are false; nothing where one is true. Of few
    // literals each comes once, and nothing comes of two that are opposite.
    fn over_roots(&mut self, lits: &[Lit]) -> Result<Option<Vec<Lit>>, AllocError> {
        let mut new = Vec::new(self.alloc);
        if self.add_roots(lits, &mut new)? {
            Ok(Some(new))
        } else {
            Ok(None)
        }
    }

    // Whether none of the literals is true.
    fn add_roots(&mut self, lits: &[Lit], new: &mut Vec<Lit>) -> Result<bool, AllocError> {
        let are_few = lits.len() <= FEW;
        for lit in lits {
            let root = self.draft.root(*lit)?;
            let value = self.draft.constant(root);
            if value == Some(true) || (are_few && new.contains(&root.negated())) {
                return Ok(false);
            }
            if value.is_none() && !(are_few && new.contains(&root)) {
                new.push(root)?;
            }
        }
        Ok(true)
    }

    // The clauses of a gate over what stands for its variables.
    fn keep_gate(&mut self, node: &Node, kept: &mut Kept) -> Result<(), AllocError> {
        let Some(form) = self.plain(node)? else {
            return Ok(());
        };
        if form == node.form && self.draft.face(node.output.variable()).is_none() {
            return self.keep_as_it_is(node, kept);
        }
        let cubes = cover(self.alloc, form)?;
        self.keep_cubes(node, form, &cubes, kept)
    }

    fn keep_cubes(
        &mut self,
        node: &Node,
        form: Form,
        cubes: &[Cube],
        kept: &mut Kept,
    ) -> Result<(), AllocError> {
        for cube in cubes {
            let lits = cube.clause(self.alloc, node.output, form)?;
            self.keep_clause(node, &lits, kept)?;
        }
        Ok(())
    }

    fn keep_clause(
        &mut self,
        node: &Node,
        lits: &[Lit],
        kept: &mut Kept,
    ) -> Result<(), AllocError> {
        let Some(mut new) = self.over_roots(lits)? else {
            return Ok(());
        };
        self.bring_whole(node)?;
        if self.is_known(node)? && !self.open_all(&mut new)? {
            return Ok(());
        }
        kept.note_all(&new);
        match self.prove_near(&new)? {
            Some(id) => kept.push(id),
            None => Ok(()),
        }
    }

    fn keep_as_it_is(&mut self, node: &Node, kept: &mut Kept) -> Result<(), AllocError> {
        for variable in [node.form.a, node.form.b, node.form.c] {
            kept.note(variable);
        }
        for at in 0..node.count {
            kept.push(self.nodes.id(node, at))?;
        }
        Ok(())
    }

    // Whether the value of a gate's output is known.
    fn is_known(&mut self, node: &Node) -> Result<bool, AllocError> {
        let root = self.draft.root(node.output)?;
        Ok(self.draft.constant(root).is_some())
    }

    // In place of each literal that is true only where one of some others is, as its gate says, come
    // these. The gates' clauses are near then. Whether the clause isn't always true.
    fn open_all(&mut self, lits: &mut Vec<Lit>) -> Result<bool, AllocError> {
        let mut place = 0usize;
        for _round in 0..ROUNDS {
            let lit = match lits.get(place) {
                Some(lit) if lits.len() <= WIDE => *lit,
                _ => return Ok(true),
            };
            match self.cases(lit)? {
                None => place = place.saturating_add(1),
                Some((node, id)) => {
                    if !self.open(lits, place, &node, id)? {
                        return Ok(false);
                    }
                }
            }
        }
        Ok(true)
    }

    // The gate of a literal, and the id of its clause that says of what others one is true where the
    // literal is, if one says it.
    fn cases(&mut self, lit: Lit) -> Result<Option<(Node, u64)>, AllocError> {
        let Some(node) = self.nodes.of(lit.variable()) else {
            return Ok(None);
        };
        let mut found = None;
        for at in 0..node.count {
            let id = self.nodes.id(&node, at);
            let is_case = match self.draft.clause(id) {
                Some(lits) => lits.contains(&lit.negated()),
                None => false,
            };
            if is_case {
                if found.is_some() {
                    return Ok(None);
                }
                found = Some((node, id));
            }
        }
        Ok(found)
    }

    // The literal at a place makes way for the others of a clause, or what stands for them.
    fn open(
        &mut self,
        lits: &mut Vec<Lit>,
        place: usize,
        node: &Node,
        id: u64,
    ) -> Result<bool, AllocError> {
        if place >= lits.len() {
            return Ok(true);
        }
        let lit = lits.swap_remove(place);
        self.draft.bring(id)?;
        for variable in [node.form.a, node.form.b, node.form.c] {
            self.draft.bring_face(variable)?;
        }
        let mut others = Vec::new(self.alloc);
        if let Some(clause) = self.draft.clause(id) {
            for other in clause {
                if *other != lit.negated() {
                    others.push(*other)?;
                }
            }
        }
        self.add_roots(&others, lits)
    }
}
