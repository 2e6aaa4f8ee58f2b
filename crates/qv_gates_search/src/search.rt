//! The rounds over the gates.

use crate::nodes::{Node, Nodes};
use qv_cnf::{ClauseList, Lit, Step};
use qv_gates_parts::{Cube, Draft, Face, Form, Leaves, Shape, cover, literal, signed};
use std::alloc::{AllocError, Global};
use std::collections::HashMap;

/// Gates, what was found of them, and where it's written.
#[derive(Drop)]
pub struct Search<'a> {
    pub(crate) alloc: Global,
    pub(crate) draft: Draft<'a>,
    pub(crate) nodes: Nodes,
    leaves: Leaves,
    // The outputs of gates by their functions.
    seen: HashMap<Form, Lit>,
    // The inputs of the gates that are near.
    by: Vec<Lit>,
    // Whether each variable stands in a clause that is to be searched.
    pub(crate) occurs: Vec<bool>,
}

impl<'a> Search<'a> {
    /// With no gate, over a base. The ids of steps begin here.
    pub fn new(alloc: Global, base: &'a ClauseList, first: u64) -> Search<'a> {
        Search {
            alloc,
            draft: Draft::new(alloc, base, first),
            nodes: Nodes::new(alloc),
            leaves: Leaves::new(alloc),
            seen: HashMap::new(alloc),
            by: Vec::new(alloc),
            occurs: Vec::new(alloc),
        }
    }

    /// Finds the gates among the clauses of these ids, which are all of the base, and makes equal
    /// ones one, in so many rounds of each kind. The variables are below this one. The answer is
    /// the ids, which rise, of the clauses of the base and of steps that are to be searched.
    pub fn run(
        &mut self,
        ids: &[u64],
        variables: usize,
        rounds: u32,
    ) -> Result<Vec<u64>, AllocError> {
        self.find(ids, variables)?;
        self.go_forward(rounds)?;
        self.take_units()?;
        self.go_both_ways(rounds)?;
        self.keep(variables)
    }

    /// The steps, and the face of each variable that has one.
    pub fn finish(self) -> (Vec<Step>, Vec<Option<Face>>) {
        self.draft.finish()
    }

    fn find(&mut self, ids: &[u64], variables: usize) -> Result<(), AllocError> {
        self.draft.make_room(variables)?;
        self.nodes.make_room(variables)?;
        self.nodes.find(&self.draft, &mut self.leaves, ids)?;
        if let Some((lit, id)) = first_unit(&self.draft, self.nodes.others()) {
            self.draft.set_truth(lit, id);
        }
        Ok(())
    }

    // Rounds by the gates alone.
    fn go_forward(&mut self, rounds: u32) -> Result<(), AllocError> {
        for _round in 0..rounds {
            if !self.forward()? {
                return Ok(());
            }
        }
        Ok(())
    }

    // Rounds by what is known, too.
    fn go_both_ways(&mut self, rounds: u32) -> Result<(), AllocError> {
        for _round in 0..rounds {
            let back = self.backward()?;
            let forth = self.forward()?;
            if !back && !forth {
                return Ok(());
            }
        }
        Ok(())
    }

    // What clauses of one literal say becomes one with what is true.
    fn take_units(&mut self) -> Result<(), AllocError> {
        for place in 0..self.nodes.others().len() {
            self.take_other(place)?;
        }
        Ok(())
    }

    fn take_other(&mut self, place: usize) -> Result<(), AllocError> {
        let Some(id) = self.nodes.others().get(place).copied() else {
            return Ok(());
        };
        match self.draft.clause(id) {
            Some([]) => self.conclude(id),
            Some([lit]) => {
                let lit = *lit;
                self.take_unit(id, lit)
            }
            _ => Ok(()),
        }
    }

    // The clause of that id says that the literal is true.
    fn take_unit(&mut self, id: u64, lit: Lit) -> Result<(), AllocError> {
        let Some(truth) = self.draft.truth() else {
            return Ok(());
        };
        let root = self.draft.root(lit)?;
        self.draft.begin()?;
        self.draft.bring(id)?;
        self.draft.bring_face(lit.variable())?;
        self.draft.merge(root, truth, &[])?;
        Ok(())
    }

    // A clause without literals is there.
    fn conclude(&mut self, id: u64) -> Result<(), AllocError> {
        self.draft.begin()?;
        self.draft.bring(id)?;
        self.draft.prove(&[], &[])?;
        Ok(())
    }

    // Goes through the gates in their order. Whether anything changed.
    fn forward(&mut self) -> Result<bool, AllocError> {
        self.seen.clear();
        let mut is_changed = false;
        for place in 0..self.nodes.len() {
            if self.reduce(place)? {
                is_changed = true;
            }
        }
        Ok(is_changed)
    }

    // Makes a gate smaller, or one with a literal or with another gate.
    fn reduce(&mut self, place: usize) -> Result<bool, AllocError> {
        let Some(node) = self.nodes.get(place) else {
            return Ok(false);
        };
        if self.draft.face(node.output.variable()).is_some() {
            return Ok(false);
        }
        let (opens, shape) = self.best(node.form)?;
        match shape {
            Shape::Constant(value) => {
                let other = self.known(value);
                self.settle(place, &node, other, opens)
            }
            Shape::Literal(variable, positive) => {
                let other = literal_of(variable, positive);
                self.settle(place, &node, other, opens)
            }
            Shape::Function(form, positive) => self.shrink(place, &node, form, positive, opens),
            Shape::Wide => Ok(false),
        }
    }

    // The literal that has the value.
    fn known(&self, value: bool) -> Option<Lit> {
        match self.draft.truth() {
            Some(truth) => Some(signed(truth, value)),
            None => None,
        }
    }

    // A gate gets the clauses of a smaller function, where inputs were opened, and becomes one with
    // an earlier gate of the same function.
    fn shrink(
        &mut self,
        place: usize,
        node: &Node,
        form: Form,
        positive: bool,
        opens: u32,
    ) -> Result<bool, AllocError> {
        let is_new = opens != 0 && self.rewrite(place, node, form, positive, opens)?;
        let is_merged = self.join(place, form, positive)?;
        Ok(is_new || is_merged)
    }

    // The best of the shapes of a gate where inputs are opened that have gates: of the fewest
    // inputs, and among these of the earliest. The inputs that are opened are given as bits.
    fn best(&mut self, form: Form) -> Result<(u32, Shape), AllocError> {
        let mut best = (0, self.shape(form, 0)?);
        let inner = self.inner(form)?;
        for opens in [1, 2, 4, 3, 5, 6, 7] {
            if opens & inner == opens {
                let shape = self.shape(form, opens)?;
                if shape.weight() < best.1.weight() {
                    best = (opens, shape);
                }
            }
        }
        Ok(best)
    }

    // Which of the inputs have gates, as bits.
    fn inner(&mut self, form: Form) -> Result<u32, AllocError> {
        let a = self.bit_of(form.a, 1)?;
        let b = self.bit_of(form.b, 2)?;
        let c = self.bit_of(form.c, 4)?;
        Ok(a | b | c)
    }

    fn bit_of(&mut self, variable: u32, bit: u32) -> Result<u32, AllocError> {
        Ok(if self.below(variable)?.is_some() {
            bit
        } else {
            0
        })
    }

    // What a function is over what stands for its inputs, or for those of the gates of the inputs
    // that are opened: those whose bits are set.
    fn shape(&mut self, form: Form, opens: u32) -> Result<Shape, AllocError> {
        self.leaves.clear();
        let a = self.input(form.a, opens & 1 != 0)?;
        let b = self.input(form.b, opens & 2 != 0)?;
        let c = self.input(form.c, opens & 4 != 0)?;
        Ok(match (a, b, c) {
            (Some(a), Some(b), Some(c)) => self.leaves.shape(form.output(a, b, c)),
            _ => Shape::Wide,
        })
    }

    // The table of an input.
    fn input(&mut self, variable: u32, is_opened: bool) -> Result<Option<u64>, AllocError> {
        if !is_opened {
            return self.leaf(variable);
        }
        match self.below(variable)? {
            Some((node, positive)) => {
                let table = self.table(node.form)?;
                Ok(turned(table, positive))
            }
            None => self.leaf(variable),
        }
    }

    // The table of a function over what stands for its inputs.
    fn table(&mut self, form: Form) -> Result<Option<u64>, AllocError> {
        let a = self.leaf(form.a)?;
        let b = self.leaf(form.b)?;
        let c = self.leaf(form.c)?;
        Ok(match (a, b, c) {
            (Some(a), Some(b), Some(c)) => Some(form.output(a, b, c)),
            _ => None,
        })
    }

    // The table of what stands for a variable. One that isn't there is false.
    fn leaf(&mut self, variable: u32) -> Result<Option<u64>, AllocError> {
        let Some(root) = self.root_of(variable)? else {
            return Ok(Some(0));
        };
        match self.draft.constant(root) {
            Some(value) => Ok(Some(if value { !0 } else { 0 })),
            None => {
                let table = self.leaves.table(root.variable())?;
                Ok(turned(table, root.is_positive()))
            }
        }
    }

    // What stands for a variable.
    fn root_of(&mut self, variable: u32) -> Result<Option<Lit>, AllocError> {
        match literal(variable) {
            Some(lit) => Ok(Some(self.draft.root(lit)?)),
            None => Ok(None),
        }
    }

    // The gate of what stands for a variable, and whether that isn't its negation.
    fn below(&mut self, variable: u32) -> Result<Option<(Node, bool)>, AllocError> {
        let Some(root) = self.root_of(variable)? else {
            return Ok(None);
        };
        Ok(match self.nodes.of(root.variable()) {
            Some(node) => Some((node, root.is_positive())),
            None => None,
        })
    }

    // The clauses are near of a gate, and of those of the inputs that are opened.
    fn bring_gates(&mut self, node: &Node, opens: u32) -> Result<(), AllocError> {
        self.draft.begin()?;
        self.by.clear();
        self.bring_gate(node)?;
        for (bit, variable) in [(1, node.form.a), (2, node.form.b), (4, node.form.c)] {
            if opens & bit != 0 {
                self.bring_below(variable)?;
            }
        }
        Ok(())
    }

    fn bring_below(&mut self, variable: u32) -> Result<(), AllocError> {
        match self.below(variable)? {
            Some((node, _)) => self.bring_gate(&node),
            None => Ok(()),
        }
    }

    // The clauses of a gate, and what its inputs are equal to.
    fn bring_gate(&mut self, node: &Node) -> Result<(), AllocError> {
        for at in 0..node.count {
            self.draft.bring(self.nodes.id(node, at))?;
        }
        for variable in [node.form.a, node.form.b, node.form.c] {
            self.bring_input(variable)?;
        }
        Ok(())
    }

    fn bring_input(&mut self, variable: u32) -> Result<(), AllocError> {
        let Some(lit) = literal(variable) else {
            return Ok(());
        };
        self.draft.bring_face(variable)?;
        let near = match self.draft.face(variable) {
            Some(face) => face.lit,
            None => lit,
        };
        if !self.by.contains(&near) && !self.by.contains(&near.negated()) {
            self.by.push(near)?;
        }
        Ok(())
    }

    // A gate becomes one with the literal that it is, if there is one.
    fn settle(
        &mut self,
        place: usize,
        node: &Node,
        other: Option<Lit>,
        opens: u32,
    ) -> Result<bool, AllocError> {
        let Some(other) = other else {
            return Ok(false);
        };
        self.bring_gates(node, opens)?;
        self.merge(place, node.output, other)
    }

    // The output of the gate at a place becomes one with another literal.
    fn merge(&mut self, place: usize, output: Lit, other: Lit) -> Result<bool, AllocError> {
        let is_merged = self.draft.merge(output, other, &self.by)?;
        if is_merged {
            self.nodes.imply(place);
        }
        Ok(is_merged)
    }

    // A gate becomes one with an earlier one of the same function.
    fn join(&mut self, place: usize, form: Form, positive: bool) -> Result<bool, AllocError> {
        let Some(node) = self.nodes.get(place) else {
            return Ok(false);
        };
        let output = signed(node.output, positive);
        let Some(other) = self.seen.get(&form).copied() else {
            self.seen.insert(form, output)?;
            return Ok(false);
        };
        self.bring_gates(&node, 0)?;
        if let Some(below) = self.nodes.of(other.variable()) {
            self.bring_gate(&below)?;
        }
        self.merge(place, output, other)
    }

    // A gate gets the clauses of a smaller function, and that function.
    fn rewrite(
        &mut self,
        place: usize,
        node: &Node,
        form: Form,
        positive: bool,
        opens: u32,
    ) -> Result<bool, AllocError> {
        self.bring_gates(node, opens)?;
        let mut ids = Vec::new(self.alloc);
        if self.state(signed(node.output, positive), form, &mut ids)? {
            self.nodes.rewrite(place, form.turned(positive), &ids)?;
            Ok(true)
        } else {
            Ok(false)
        }
    }

    // Adds the clauses that say that a literal is a function, from what is near, and their ids to a
    // list. Whether each of them followed.
    fn state(&mut self, output: Lit, form: Form, ids: &mut Vec<u64>) -> Result<bool, AllocError> {
        let cubes = cover(self.alloc, form)?;
        self.state_all(output, form, &cubes, ids)
    }

    fn state_all(
        &mut self,
        output: Lit,
        form: Form,
        cubes: &[Cube],
        ids: &mut Vec<u64>,
    ) -> Result<bool, AllocError> {
        for cube in cubes {
            match self.state_one(output, form, *cube)? {
                Some(id) => ids.push(id)?,
                None => return Ok(false),
            }
        }
        Ok(true)
    }

    fn state_one(
        &mut self,
        output: Lit,
        form: Form,
        cube: Cube,
    ) -> Result<Option<u64>, AllocError> {
        let lits = cube.clause(self.alloc, output, form)?;
        self.prove_near(&lits)
    }

    // What is known of outputs goes back to the inputs. Whether anything changed.
    fn backward(&mut self) -> Result<bool, AllocError> {
        let mut is_changed = false;
        for place in (0..self.nodes.len()).rev() {
            if self.infer(place)? {
                is_changed = true;
            }
        }
        Ok(is_changed)
    }

    // Whether the value of a gate's output says something new of its inputs.
    fn infer(&mut self, place: usize) -> Result<bool, AllocError> {
        let Some(node) = self.nodes.get(place) else {
            return Ok(false);
        };
        if node.is_implied || self.draft.face(node.output.variable()).is_none() {
            return Ok(false);
        }
        let root = self.draft.root(node.output)?;
        match self.draft.constant(root) {
            Some(value) => self.infer_all(&node, value),
            None => Ok(false),
        }
    }

    fn infer_all(&mut self, node: &Node, value: bool) -> Result<bool, AllocError> {
        let Form { a, b, c, .. } = node.form;
        let mut is_changed = false;
        for (x, y) in [(a, 0), (b, 0), (c, 0), (a, b), (a, c), (b, c)] {
            if x != 0 && self.infer_pair(node, value, x, y)? {
                is_changed = true;
            }
        }
        Ok(is_changed)
    }

    // Whether an input is another, or known where the other is 0, since the output has this value:
    // then it becomes so.
    fn infer_pair(&mut self, node: &Node, value: bool, x: u32, y: u32) -> Result<bool, AllocError> {
        let Some(are_same) = self.compare(node.form, value, x, y)? else {
            return Ok(false);
        };
        let one = self.root_of(x)?;
        let two = if y == 0 {
            self.known(false)
        } else {
            self.root_of(y)?
        };
        match (one, two) {
            (Some(one), Some(two)) if one.variable() != two.variable() => {
                self.bring_whole(node)?;
                self.draft.merge(one, signed(two, are_same), &self.by)
            }
            _ => Ok(false),
        }
    }

    // Whether two inputs are the same or opposite wherever the function has this value, if they are
    // one of these. An input that is 0 is false.
    fn compare(
        &mut self,
        form: Form,
        value: bool,
        x: u32,
        y: u32,
    ) -> Result<Option<bool>, AllocError> {
        self.leaves.clear();
        let table = self.table(form)?;
        let one = self.leaf(x)?;
        let two = self.leaf(y)?;
        Ok(match (turned(table, value), one, two) {
            (Some(rows), Some(one), Some(two)) => same_or_apart(rows, one ^ two),
            _ => None,
        })
    }

    /// The clauses of a gate are near, and what is known of its output.
    pub(crate) fn bring_whole(&mut self, node: &Node) -> Result<(), AllocError> {
        self.bring_gates(node, 0)?;
        self.draft.bring_face(node.output.variable())
    }

    /// Adds a clause that follows from the gates near.
    pub(crate) fn prove_near(&mut self, lits: &[Lit]) -> Result<Option<u64>, AllocError> {
        self.draft.prove(lits, &self.by)
    }

    /// What a gate is over what stands for its inputs.
    pub(crate) fn plain(&mut self, node: &Node) -> Result<Option<Form>, AllocError> {
        Ok(self.shape(node.form, 0)?.form())
    }
}

// The first clause of one literal says what is true.
fn first_unit(draft: &Draft<'_>, ids: &[u64]) -> Option<(Lit, u64)> {
    for id in ids {
        if let Some([lit]) = draft.clause(*id) {
            return Some((*lit, *id));
        }
    }
    None
}

// Where the rows have no difference, or nothing else.
fn same_or_apart(rows: u64, difference: u64) -> Option<bool> {
    match (rows & difference == 0, rows & !difference == 0) {
        (true, false) => Some(true),
        (false, true) => Some(false),
        _ => None,
    }
}

// The literal of a variable, or its negation.
fn literal_of(variable: u32, positive: bool) -> Option<Lit> {
    match literal(variable) {
        Some(lit) => Some(signed(lit, positive)),
        None => None,
    }
}

// A table or its negation.
fn turned(table: Option<u64>, positive: bool) -> Option<u64> {
    match table {
        Some(table) if positive => Some(table),
        Some(table) => Some(!table),
        None => None,
    }
}
