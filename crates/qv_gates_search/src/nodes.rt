//! The gates among the clauses of a base.

use qv_cnf::Lit;
use qv_gates_parts::{Draft, Form, Gate, Leaves, guesses};
use std::alloc::{AllocError, Global};

/// A variable that is a function of earlier ones, by clauses that stand one behind the other.
#[derive(Clone, Copy)]
pub(crate) struct Node {
    pub(crate) output: Lit,
    pub(crate) form: Form,
    // How many clauses it has. Their ids follow the first one, or are those at the places from this
    // one on of a list.
    pub(crate) count: usize,
    first: u64,
    at: Option<usize>,
    // Whether what stands for the output was found from the gates alone: then they say all that
    // this one does.
    pub(crate) is_implied: bool,
}

/// The gates in the order of their clauses, and the ids of the other clauses.
#[derive(Drop)]
pub(crate) struct Nodes {
    list: Vec<Node>,
    // The place of each variable's gate.
    places: Vec<Option<usize>>,
    others: Vec<u64>,
    // The ids of the clauses of gates that were written anew.
    listed: Vec<u64>,
}

impl Nodes {
    /// With no gate.
    pub(crate) fn new(alloc: Global) -> Nodes {
        Nodes {
            list: Vec::new(alloc),
            places: Vec::new(alloc),
            others: Vec::new(alloc),
            listed: Vec::new(alloc),
        }
    }

    /// Makes room for the variables below this one.
    pub(crate) fn make_room(&mut self, variables: usize) -> Result<(), AllocError> {
        self.places.resize(variables, None)
    }

    /// How many gates there are.
    pub(crate) fn len(&self) -> usize {
        self.list.len()
    }

    /// The gate at a place.
    pub(crate) fn get(&self, place: usize) -> Option<Node> {
        self.list.get(place).copied()
    }

    /// What stands for the output of the gate at a place was found from gates alone.
    pub(crate) fn imply(&mut self, place: usize) {
        if let Some(node) = self.list.get_mut(place) {
            node.is_implied = true;
        }
    }

    /// The gate at a place is another function, by the clauses of these ids.
    pub(crate) fn rewrite(
        &mut self,
        place: usize,
        form: Form,
        ids: &[u64],
    ) -> Result<(), AllocError> {
        let at = self.listed.len();
        self.listed.extend_from_slice(ids)?;
        if let Some(node) = self.list.get_mut(place) {
            node.form = form;
            node.count = ids.len();
            node.at = Some(at);
        }
        Ok(())
    }

    /// The id of one of the clauses of a gate.
    pub(crate) fn id(&self, node: &Node, place: usize) -> u64 {
        match node.at {
            None => node.first.saturating_add(place as u64),
            Some(at) => self.listed_at(at.saturating_add(place)),
        }
    }

    fn listed_at(&self, place: usize) -> u64 {
        match self.listed.get(place) {
            Some(id) => *id,
            None => 0,
        }
    }

    /// The ids of the clauses that are of no gate.
    pub(crate) fn others(&self) -> &[u64] {
        &self.others
    }

    /// The gate of a variable.
    pub(crate) fn of(&self, variable: u32) -> Option<Node> {
        match self.places.get(variable as usize) {
            Some(Some(place)) => self.get(*place),
            _ => None,
        }
    }

    /// Finds the gates among the clauses of these ids.
    pub(crate) fn find(
        &mut self,
        draft: &Draft<'_>,
        leaves: &mut Leaves,
        ids: &[u64],
    ) -> Result<(), AllocError> {
        let mut behind = 0;
        for id in ids {
            if *id >= behind {
                behind = self.find_at(draft, leaves, *id)?;
            }
        }
        Ok(())
    }

    // Notes the gate whose clauses begin at this id, or the clause alone. The answer is the id
    // behind.
    fn find_at(
        &mut self,
        draft: &Draft<'_>,
        leaves: &mut Leaves,
        id: u64,
    ) -> Result<u64, AllocError> {
        match self.gate_at(draft, leaves, id)? {
            Some(node) => {
                let behind = id.saturating_add(node.count as u64);
                self.push(node)?;
                Ok(behind)
            }
            None => {
                self.others.push(id)?;
                Ok(id)
            }
        }
    }

    fn push(&mut self, node: Node) -> Result<(), AllocError> {
        let place = self.list.len();
        let variable = node.output.variable() as usize;
        self.list.push(node)?;
        if let Some(at) = self.places.get_mut(variable) {
            *at = Some(place);
        }
        Ok(())
    }

    // The gate whose clauses begin at this id.
    fn gate_at(
        &self,
        draft: &Draft<'_>,
        leaves: &mut Leaves,
        id: u64,
    ) -> Result<Option<Node>, AllocError> {
        let first = lits_at(draft, id, 0);
        let second = lits_at(draft, id, 1);
        let third = lits_at(draft, id, 2);
        for guess in guesses(first, second, third) {
            if let Some((output, gate)) = guess {
                let found = self.guessed(draft, leaves, id, output, &gate)?;
                if found.is_some() {
                    return Ok(found);
                }
            }
        }
        Ok(None)
    }

    // The gate of this output, if its clauses begin at this id and the output has no other gate.
    fn guessed(
        &self,
        draft: &Draft<'_>,
        leaves: &mut Leaves,
        id: u64,
        output: Lit,
        gate: &Gate,
    ) -> Result<Option<Node>, AllocError> {
        if self.of(output.variable()).is_none() && is_there(draft, id, output, gate) {
            over_inputs(leaves, id, output, gate)
        } else {
            Ok(None)
        }
    }
}

// The literals of a clause behind this one, none where there is no clause.
fn lits_at<'a>(draft: &'a Draft<'_>, id: u64, at: u64) -> &'a [Lit] {
    match draft.clause(id.saturating_add(at)) {
        Some(lits) => lits,
        None => &[],
    }
}

// Whether the clauses from this one on are those of a gate.
fn is_there(draft: &Draft<'_>, id: u64, output: Lit, gate: &Gate) -> bool {
    for at in 0..gate.len() {
        if !gate.has(output, at, lits_at(draft, id, at as u64)) {
            return false;
        }
    }
    output.is_positive()
}

// The gate over its inputs, if they come before the output.
fn over_inputs(
    leaves: &mut Leaves,
    first: u64,
    output: Lit,
    gate: &Gate,
) -> Result<Option<Node>, AllocError> {
    leaves.clear();
    let table = table_of(leaves, gate)?;
    for variable in leaves.variables() {
        if *variable >= output.variable() {
            return Ok(None);
        }
    }
    match leaves.shape(table).form() {
        Some(form) => Ok(Some(Node {
            output,
            form,
            count: gate.len(),
            first,
            at: None,
            is_implied: false,
        })),
        None => Ok(None),
    }
}

// The table of a gate.
fn table_of(leaves: &mut Leaves, gate: &Gate) -> Result<u64, AllocError> {
    let (a, b, c) = gate.inputs();
    let a = leaf(leaves, a)?;
    let b = leaf(leaves, b)?;
    let c = match c {
        Some(c) => leaf(leaves, c)?,
        None => 0,
    };
    Ok(gate.output(a, b, c))
}

// The table of a literal.
fn leaf(leaves: &mut Leaves, lit: Lit) -> Result<u64, AllocError> {
    let table = leaves.table(lit.variable())?.unwrap_or(0);
    Ok(if lit.is_positive() { table } else { !table })
}
