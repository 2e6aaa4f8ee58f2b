//! The clauses of a function of few variables.

ghost use Rattle.std.specs.Prelude.{◌≤◌};

use crate::literals::{literal, signed};
use crate::tables::Form;
use qv_cnf::Lit;
use std::alloc::{AllocError, Global};

// The values of three inputs, where they have one.
type Sides = (Option<bool>, Option<bool>, Option<bool>);

/// Rows with one value: those in which some inputs have these.
#[derive(Clone, Copy)]
pub struct Cube {
    value: bool,
    rows: u8,
    sides: Sides,
}

static SIDES: [Option<bool>; 3] = [None, Some(false), Some(true)];

/// Cubes that cover all rows of a function, and none of which may be left out.
pub fn cover(alloc: Global, form: Form) -> Result<Vec<Cube>, AllocError> {
    let mut found = Vec::new(alloc);
    for size in 0..4 {
        add_cubes(form, size, &mut found)?;
    }
    needed(alloc, &found)
}

// Adds the cubes in which so many inputs have a value, where they cover more.
fn add_cubes(form: Form, size: u32, found: &mut Vec<Cube>) -> Result<(), AllocError> {
    for a in SIDES {
        for b in SIDES {
            for c in SIDES {
                if one(a) + one(b) + one(c) == size {
                    add_cube(form, (a, b, c), found)?;
                }
            }
        }
    }
    Ok(())
}

// Adds the cube of these sides, if the function has one and it covers more.
fn add_cube(form: Form, sides: Sides, found: &mut Vec<Cube>) -> Result<(), AllocError> {
    let rows = rows_of(sides);
    let value = form.table & rows == rows;
    let is_cube = value || form.table & rows == 0;
    let is_new = rows & !covered(found) != 0;
    if is_cube && is_new && fits(sides, form) {
        found.push(Cube { value, rows, sides })?;
    }
    Ok(())
}

// Whether an input that isn't there has no value.
fn fits(sides: Sides, form: Form) -> bool {
    let (a, b, c) = sides;
    fits_one(a, form.a) && fits_one(b, form.b) && fits_one(c, form.c)
}

fn fits_one(side: Option<bool>, variable: u32) -> bool {
    side.is_none() || variable != 0
}

fn one(side: Option<bool>) -> u32
    ensures { result ≤ 1 }
{
    if side.is_some() { 1 } else { 0 }
}

// The rows in which the inputs have these values.
fn rows_of(sides: Sides) -> u8 {
    let (a, b, c) = sides;
    side(a, 0xaa) & side(b, 0xcc) & side(c, 0xf0)
}

// The rows in which an input has a value, of those in which it's true.
fn side(side: Option<bool>, rows: u8) -> u8 {
    match side {
        None => 255,
        Some(true) => rows,
        Some(false) => !rows,
    }
}

fn covered(cubes: &[Cube]) -> u8 {
    let mut rows = 0;
    for cube in cubes {
        rows |= cube.rows;
    }
    rows
}

// The rows of the cubes behind a place.
fn covered_behind(cubes: &[Cube], place: usize) -> u8 {
    let mut rows = 0;
    for (other, cube) in cubes.iter().enumerate() {
        if other > place {
            rows |= cube.rows;
        }
    }
    rows
}

// The cubes but for those that the later ones and those kept before cover.
fn needed(alloc: Global, cubes: &[Cube]) -> Result<Vec<Cube>, AllocError> {
    let mut kept = Vec::new(alloc);
    for (place, cube) in cubes.iter().enumerate() {
        if cube.rows & !(covered(&kept) | covered_behind(cubes, place)) != 0 {
            kept.push(*cube)?;
        }
    }
    Ok(kept)
}

impl Cube {
    /// The clause that says that where the inputs have the cube's values, the output has its.
    pub fn clause(self, alloc: Global, output: Lit, form: Form) -> Result<Vec<Lit>, AllocError> {
        let (a, b, c) = self.sides;
        let mut lits = Vec::new(alloc);
        lits.push(signed(output, self.value))?;
        for (side, variable) in [(a, form.a), (b, form.b), (c, form.c)] {
            if let Some(lit) = opposite(side, variable) {
                lits.push(lit)?;
            }
        }
        Ok(lits)
    }
}

// The literal that says that a variable hasn't this value.
fn opposite(side: Option<bool>, variable: u32) -> Option<Lit> {
    let lit = literal(variable)?;
    Some(signed(lit, !side?))
}
