//! Gates, and the clauses that each is written as.

use crate::literals::signed;
use qv_cnf::Lit;

/// What a variable is of other literals.
#[derive(Clone, Copy)]
pub enum Gate {
    /// Both are true.
    And(Lit, Lit),
    /// One is true, and the other isn't.
    Xor(Lit, Lit),
    /// The condition, and what it chooses from.
    Mux(Lit, Lit, Lit),
    /// Two at least are true.
    Maj(Lit, Lit, Lit),
}

// The literals of one of its clauses. One of two literals has no third.
type Few = (Lit, Lit, Option<Lit>);

impl Gate {
    /// Its inputs.
    pub fn inputs(&self) -> (Lit, Lit, Option<Lit>) {
        match *self {
            Gate::And(a, b) | Gate::Xor(a, b) => (a, b, None),
            Gate::Mux(c, a, b) | Gate::Maj(c, a, b) => (c, a, Some(b)),
        }
    }

    /// The output, bit by bit, where the inputs are these.
    pub fn output(&self, a: u64, b: u64, c: u64) -> u64 {
        match *self {
            Gate::And(_, _) => a & b,
            Gate::Xor(_, _) => a ^ b,
            Gate::Mux(_, _, _) => (a & b) | (!a & c),
            Gate::Maj(_, _, _) => (a & b) | (a & c) | (b & c),
        }
    }

    /// How many clauses it is written as.
    pub fn len(&self) -> usize {
        match *self {
            Gate::And(_, _) => 3,
            Gate::Xor(_, _) | Gate::Mux(_, _, _) => 4,
            Gate::Maj(_, _, _) => 6,
        }
    }

    // The clause at a place, where its output is `g`.
    fn clause(&self, g: Lit, place: usize) -> Few {
        match *self {
            Gate::And(a, b) => and_clause(g, a, b, place),
            Gate::Xor(a, b) => xor_clause(g, a, b, place),
            Gate::Mux(c, a, b) => mux_clause(g, c, if place < 2 { a } else { b }, place),
            Gate::Maj(a, b, c) => maj_clause(g, (a, b, c), place),
        }
    }

    /// Whether the clause at a place has these literals.
    pub fn has(&self, g: Lit, place: usize, lits: &[Lit]) -> bool {
        let (first, second, third) = self.clause(g, place);
        match (lits, third) {
            ([a, b], None) => *a == first && *b == second,
            ([a, b, c], Some(third)) => *a == first && *b == second && *c == third,
            _ => false,
        }
    }
}

// Three literals, each with its sign.
fn three(lits: (Lit, Lit, Lit), signs: (bool, bool, bool)) -> Few {
    let (x, y, z) = lits;
    (
        signed(x, signs.0),
        signed(y, signs.1),
        Some(signed(z, signs.2)),
    )
}

fn and_clause(g: Lit, a: Lit, b: Lit, place: usize) -> Few {
    match place {
        0 => (g.negated(), a, None),
        1 => (g.negated(), b, None),
        _ => three((g, a, b), (true, false, false)),
    }
}

fn xor_clause(g: Lit, a: Lit, b: Lit, place: usize) -> Few {
    let signs = match place {
        0 => (false, true, true),
        1 => (false, false, false),
        2 => (true, false, true),
        _ => (true, true, false),
    };
    three((g, a, b), signs)
}

// One that says what the output is where the condition chooses this input.
fn mux_clause(g: Lit, c: Lit, input: Lit, place: usize) -> Few {
    let signs = match place {
        0 => (false, false, true),
        1 => (false, true, false),
        2 => (true, false, true),
        _ => (true, true, false),
    };
    three((c, input, g), signs)
}

// One that says what the output is where two inputs are the same.
fn maj_clause(g: Lit, inputs: (Lit, Lit, Lit), place: usize) -> Few {
    let (a, b, c) = inputs;
    let (x, y) = match place {
        0 | 3 => (a, b),
        1 | 4 => (a, c),
        _ => (b, c),
    };
    let is_low = place >= 3;
    three((x, y, g), (is_low, is_low, !is_low))
}

/// A gate whose first three clauses may be these, and its output. The later clauses decide.
pub fn guesses(first: &[Lit], second: &[Lit], third: &[Lit]) -> [Option<(Lit, Gate)>; 3] {
    match (first, second, third) {
        ([x, a], [_, b], [_, _, _]) => [Some((x.negated(), Gate::And(*a, *b))), None, None],
        ([x, y, z], [_, second, _], [_, other, _]) => [
            Some((x.negated(), Gate::Xor(*y, *z))),
            Some((*z, Gate::Mux(x.negated(), y.negated(), other.negated()))),
            Some((*z, Gate::Maj(x.negated(), y.negated(), second.negated()))),
        ],
        _ => [None, None, None],
    }
}
