//! Functions of few variables, by their tables: a bit for each row of values.

use std::alloc::{AllocError, Global};

/// A function of at most three variables: 0 is none, and the others rise. A row's number has the
/// first variable's value as its lowest bit.
#[derive(Clone, Copy, PartialEq, Eq, Hash)]
pub struct Form {
    pub a: u32,
    pub b: u32,
    pub c: u32,
    pub table: u8,
}

// The most variables of a table.
const MOST: usize = 6;

// For each variable of a table, the rows in which it is true, and how far they are from those in
// which it isn't.
static ROWS: [(u64, u32); MOST] = [
    (0xaaaa_aaaa_aaaa_aaaa, 1),
    (0xcccc_cccc_cccc_cccc, 2),
    (0xf0f0_f0f0_f0f0_f0f0, 4),
    (0xff00_ff00_ff00_ff00, 8),
    (0xffff_0000_ffff_0000, 16),
    (0xffff_ffff_0000_0000, 32),
];

/// The variables of a table.
#[derive(Drop)]
pub struct Leaves {
    vars: Vec<u32>,
}

/// What a function of literals is.
#[derive(Clone, Copy)]
pub enum Shape {
    /// The same in each row.
    Constant(bool),
    /// A variable, or its negation.
    Literal(u32, bool),
    /// A function that is false where all is false, or its negation.
    Function(Form, bool),
    /// A function of too many variables.
    Wide,
}

impl Shape {
    /// The function itself, if it isn't too wide.
    pub fn form(self) -> Option<Form> {
        match self {
            Shape::Constant(value) => Some(single(0, if value { 255 } else { 0 })),
            Shape::Literal(variable, positive) => Some(single(
                variable,
                if positive { 0xaa } else { 0x55 },
            )),
            Shape::Function(form, positive) => Some(form.turned(positive)),
            Shape::Wide => None,
        }
    }

    /// How much there is to it: how many inputs, and which they are.
    pub fn weight(self) -> (usize, u64) {
        match self.form() {
            Some(form) => (form.len(), form.sum()),
            None => (4, 0),
        }
    }
}

// A function of one variable.
fn single(a: u32, table: u8) -> Form {
    Form {
        a,
        b: 0,
        c: 0,
        table,
    }
}

impl Leaves {
    /// No variable.
    pub fn new(alloc: Global) -> Leaves {
        Leaves {
            vars: Vec::new(alloc),
        }
    }

    /// Takes all variables away.
    pub fn clear(&mut self) {
        self.vars.clear();
    }

    /// The variables, in the order in which they came.
    pub fn variables(&self) -> &[u32] {
        &self.vars
    }

    /// The table of a variable, if there is room for it.
    pub fn table(&mut self, var: u32) -> Result<Option<u64>, AllocError> {
        for (place, other) in self.vars.iter().enumerate() {
            if *other == var {
                return Ok(rows_of(place));
            }
        }
        let table = rows_of(self.vars.len());
        if table.is_some() {
            self.vars.push(var)?;
        }
        Ok(table)
    }

    /// What the function is that has this table.
    pub fn shape(&self, table: u64) -> Shape {
        let mut found = [(0u32, 0u64); 3];
        let mut count = 0usize;
        for (place, var) in self.vars.iter().enumerate() {
            let Some(rows) = depends(table, place) else {
                continue;
            };
            match found.get_mut(count) {
                Some(slot) => *slot = (*var, rows),
                None => return Shape::Wide,
            }
            count = count.saturating_add(1);
        }
        shaped(table, found, count)
    }
}

// The rows in which the variable at a place is true.
fn rows_of(place: usize) -> Option<u64> {
    match ROWS.get(place) {
        Some((rows, _)) => Some(*rows),
        None => None,
    }
}

// The rows in which the variable at a place is true, if some row and the one that differs from it
// in this variable have other values.
fn depends(table: u64, place: usize) -> Option<u64> {
    let (rows, distance) = *ROWS.get(place)?;
    if (table.wrapping_shr(distance) ^ table) & !rows != 0 {
        Some(rows)
    } else {
        None
    }
}

// Exchanges two places, if their variables fall.
fn sorted(x: (u32, u64), y: (u32, u64)) -> ((u32, u64), (u32, u64)) {
    if y.0 < x.0 { (y, x) } else { (x, y) }
}

// By the variables that the table depends on, of which there are so many.
fn shaped(table: u64, found: [(u32, u64); 3], count: usize) -> Shape {
    let [x, y, z] = found;
    if count == 0 {
        return Shape::Constant(table & 1 == 1);
    }
    if count == 1 {
        return Shape::Literal(x.0, table & 1 == 0);
    }
    if count == 2 {
        let (x, y) = sorted(x, y);
        return function(table, x, y, (0, 0));
    }
    let (x, y) = sorted(x, y);
    let (y, z) = sorted(y, z);
    let (x, y) = sorted(x, y);
    function(table, x, y, z)
}

fn function(table: u64, x: (u32, u64), y: (u32, u64), z: (u32, u64)) -> Shape {
    let mut small = 0u8;
    let mut bit = 1u8;
    for row in 0..8u8 {
        if value_at(table, row, x.1, y.1, z.1) {
            small |= bit;
        }
        bit = bit.wrapping_mul(2);
    }
    let positive = small & 1 == 0;
    let form = Form {
        a: x.0,
        b: y.0,
        c: z.0,
        table: small,
    };
    Shape::Function(form.turned(positive), positive)
}

// The value of a table where its variables have those of a row, and all others are false.
fn value_at(table: u64, row: u8, x: u64, y: u64, z: u64) -> bool {
    table & side(x, row & 1 != 0) & side(y, row & 2 != 0) & side(z, row & 4 != 0) != 0
}

// The rows in which a variable has a value. One that isn't there has both.
fn side(rows: u64, value: bool) -> u64 {
    if rows == 0 {
        !0
    } else if value {
        rows
    } else {
        !rows
    }
}

impl Form {
    /// The output, row by row, where the inputs are these.
    pub fn output(self, a: u64, b: u64, c: u64) -> u64 {
        let mut out = 0;
        let mut bit = 1u8;
        for row in 0..8u8 {
            if self.table & bit != 0 {
                out |= chosen(a, row & 1 != 0) & chosen(b, row & 2 != 0) & chosen(c, row & 4 != 0);
            }
            bit = bit.wrapping_mul(2);
        }
        out
    }

    /// How many inputs it has.
    pub fn len(self) -> usize {
        if self.c != 0 {
            3
        } else if self.b != 0 {
            2
        } else if self.a != 0 {
            1
        } else {
            0
        }
    }

    // The sum of its inputs' numbers.
    fn sum(self) -> u64 {
        (self.a as u64)
            .wrapping_add(self.b as u64)
            .wrapping_add(self.c as u64)
    }

    /// The function or its negation.
    pub fn turned(self, positive: bool) -> Form {
        Form {
            a: self.a,
            b: self.b,
            c: self.c,
            table: if positive { self.table } else { !self.table },
        }
    }
}

// A table, or its negation.
fn chosen(table: u64, value: bool) -> u64 {
    if value { table } else { !table }
}
