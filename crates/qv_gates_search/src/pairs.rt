//! Pairs of literals that have one value on all inputs that were tried.

use crate::search::Search;
use qv_cnf::Lit;
use qv_gates_parts::{literal, signed};
use std::alloc::{AllocError, Global};
use std::collections::HashMap;

// The inputs that are tried: so many times 64.
const ROUNDS: usize = 16;

// Lists of more variables aren't simulated.
const MOST: usize = 1_000_000;

// Where the values of inputs begin.
const SEED: u64 = 0x9e37_79b9_7f4a_7c15;

// What the variables' values are on inputs by chance.
#[derive(Drop)]
struct Simulation {
    // 64 values of each variable, a bit each.
    words: Vec<u64>,
    // What all words of a variable so far come to.
    sums: Vec<u64>,
    // Whether a variable's first value is true. Then all its words are turned in the sum.
    turned: Vec<bool>,
    state: u64,
}

impl Simulation {
    fn new(alloc: Global) -> Simulation {
        Simulation {
            words: Vec::new(alloc),
            sums: Vec::new(alloc),
            turned: Vec::new(alloc),
            state: SEED,
        }
    }

    // Makes room for the variables below this one.
    fn make_room(&mut self, variables: usize) -> Result<(), AllocError> {
        self.words.resize(variables, 0)?;
        self.sums.resize(variables, 0)?;
        self.turned.resize(variables, false)
    }

    // The next number by chance (SplitMix64).
    fn chance(&mut self) -> u64 {
        self.state = self.state.wrapping_add(SEED);
        mixed(self.state)
    }

    // The values of a variable.
    fn word(&self, variable: u32) -> u64 {
        match self.words.get(variable as usize) {
            Some(word) => *word,
            None => 0,
        }
    }

    fn word_of(&self, lit: Lit) -> u64 {
        let word = self.word(lit.variable());
        if lit.is_positive() { word } else { !word }
    }

    fn is_turned(&self, variable: u32) -> bool {
        matches!(self.turned.get(variable as usize), Some(true))
    }

    fn sum(&self, variable: u32) -> u64 {
        match self.sums.get(variable as usize) {
            Some(sum) => *sum,
            None => 0,
        }
    }

    // Notes the values of a variable in a round.
    fn note(&mut self, round: usize, variable: u32, word: u64) {
        let place = variable as usize;
        if let Some(at) = self.words.get_mut(place) {
            *at = word;
        }
        if round == 0 {
            if let Some(at) = self.turned.get_mut(place) {
                *at = word & 1 != 0;
            }
        }
        let word = if self.is_turned(variable) {
            !word
        } else {
            word
        };
        if let Some(at) = self.sums.get_mut(place) {
            *at = mixed(*at ^ word).wrapping_add(SEED);
        }
    }

    // The literal of a variable whose first value is false.
    fn lit(&self, variable: u32) -> Option<Lit> {
        match literal(variable) {
            Some(lit) => Some(signed(lit, !self.is_turned(variable))),
            None => None,
        }
    }
}

// A number that each bit of this one changes (the finalizer of SplitMix64).
fn mixed(number: u64) -> u64 {
    let number = (number ^ (number >> 30)).wrapping_mul(0xbf58_476d_1ce4_e5b9);
    let number = (number ^ (number >> 27)).wrapping_mul(0x94d0_49bb_1331_11eb);
    number ^ (number >> 31)
}

impl Search<'_> {
    /// Pairs of literals that have one value on each of 1,024 inputs by chance, as the gates say: an
    /// earlier one and the output of a gate, in the order of the outputs, each with the inputs of
    /// that gate behind it. The variables are below this one.
    pub fn pairs(&self, variables: usize) -> Result<Vec<Vec<Lit>>, AllocError> {
        let mut pairs = Vec::new(self.alloc);
        if variables <= MOST {
            let mut values = Simulation::new(self.alloc);
            values.make_room(variables)?;
            for round in 0..ROUNDS {
                self.simulate(&mut values, round, variables as u32);
            }
            self.pair_all(&values, variables as u32, &mut pairs)?;
        }
        Ok(pairs)
    }

    // The values of all variables in a round, gates behind their inputs.
    fn simulate(&self, values: &mut Simulation, round: usize, variables: u32) {
        for variable in 1..variables {
            let word = self.simulated(values, variable);
            values.note(round, variable, word);
        }
    }

    fn simulated(&self, values: &mut Simulation, variable: u32) -> u64 {
        if let Some(face) = self.draft.face(variable) {
            return values.word_of(face.lit);
        }
        if let Some(truth) = self.draft.truth() {
            if truth.variable() == variable {
                return if truth.is_positive() { !0 } else { 0 };
            }
        }
        match self.nodes.of(variable) {
            Some(node) => node.form.output(
                values.word(node.form.a),
                values.word(node.form.b),
                values.word(node.form.c),
            ),
            None => values.chance(),
        }
    }

    // Each output with the first variable of the same values.
    fn pair_all(
        &self,
        values: &Simulation,
        variables: u32,
        pairs: &mut Vec<Vec<Lit>>,
    ) -> Result<(), AllocError> {
        let mut firsts = HashMap::new(self.alloc);
        for variable in 1..variables {
            if self.draft.face(variable).is_none() && self.has(variable) {
                self.pair(values, variable, &mut firsts, pairs)?;
            }
        }
        Ok(())
    }

    fn pair(
        &self,
        values: &Simulation,
        variable: u32,
        firsts: &mut HashMap<u64, u32>,
        pairs: &mut Vec<Vec<Lit>>,
    ) -> Result<(), AllocError> {
        let sum = values.sum(variable);
        let Some(first) = firsts.get(&sum).copied() else {
            firsts.insert(sum, variable)?;
            return Ok(());
        };
        if let Some(node) = self.nodes.of(variable) {
            let mut pair = Vec::new(self.alloc);
            for lit in [values.lit(first), values.lit(variable)] {
                pair.extend(lit)?;
            }
            for input in [node.form.a, node.form.b, node.form.c] {
                pair.extend(literal(input))?;
            }
            pairs.push(pair)?;
        }
        Ok(())
    }
}
