//! The clauses of a checker, as a text in the DIMACS format.

ghost use Rattle.std.specs.Prelude.{◌≡◌, ◌++◌, OnOk, codes, length, max};
ghost use Rattle.std.specs.Fmt.{decimal};
ghost use Rattle.std.specs.List.{flat_map};
ghost use Rattle.qv_cnf.specs.Listing.{clauses_of};
ghost use Rattle.qv_check_clauses.specs.Clauses.{clause_text, dimacs_text, greatest, greatest_in};

use qv_cnf::Lit;
use qv_lrat_text::decimal::push_number;
use qv_rup::Checker;
use std::alloc::{AllocError, Global};

// The greater number.
fn greater(one: u32, other: u32) -> u32
    ensures { result ≡ max one other }
{
    if one < other { other } else { one }
}

// The greatest variable of a clause.
fn greatest_in(lits: &[Lit]) -> u32
    ensures { result ≡ greatest_in lits.now }
{
    let mut greatest = 0;
    'literals: for lit in lits {
        greatest = greater(greatest, lit.variable());
    }
    greatest
}

// The greatest variable of the clauses.
fn greatest_of(checker: &Checker) -> u32
    ensures { result ≡ greatest (clauses_of checker.now.live) }
{
    let ids = checker.ids();
    let mut greatest = 0;
    'clauses: for id in ids {
        if let Some(lits) = checker.clause(*id) {
            greatest = greater(greatest, greatest_in(lits));
        }
    }
    greatest
}

// How many there are.
fn count_of(checker: &Checker) -> usize
    ensures { result ≡ length (clauses_of checker.now.live) }
{
    let ids = checker.ids();
    let mut count = 0;
    'clauses: for id in ids {
        if let Some(_lits) = checker.clause(*id) {
            count += 1;
        }
    }
    count
}

// Adds the problem line.
fn add_problem(alloc: Global, checker: &Checker, out: &mut Vec<u8>) -> Result<(), AllocError>
    ensures { OnOk result (out.new.items ≡ out.old.items ++ (codes "p cnf "
        ++ (decimal (greatest (clauses_of checker.now.live)) ++ (codes " "
        ++ (decimal (length (clauses_of checker.now.live)) ++ codes "\n"))))) }
{
    let greatest = greatest_of(checker);
    let count = count_of(checker);
    let line = format!(in alloc; "p cnf {greatest} {count}\n")?;
    out.extend_from_slice(line.as_bytes())?;
    Ok(())
}

// Adds the literals of a clause, and 0.
fn add_clause(lits: &[Lit], out: &mut Vec<u8>) -> Result<(), AllocError>
    ensures { OnOk result (out.new.items ≡ out.old.items ++ clause_text lits.now) }
{
    'literals: for lit in lits {
        push_number(lit.number(), out)?;
    }
    out.extend_from_slice(b"0\n")?;
    Ok(())
}

// Adds a line for each clause.
fn add_clauses(checker: &Checker, out: &mut Vec<u8>) -> Result<(), AllocError>
    ensures { OnOk result (out.new.items
        ≡ out.old.items ++ flat_map clause_text (clauses_of checker.now.live)) }
{
    let ids = checker.ids();
    'clauses: for id in ids {
        if let Some(lits) = checker.clause(*id) {
            add_clause(lits, out)?;
        }
    }
    Ok(())
}

/// Adds the live clauses of a checker to a text.
pub(crate) fn add_dimacs(
    alloc: Global,
    checker: &Checker,
    out: &mut Vec<u8>,
) -> Result<(), AllocError>
    ensures { OnOk result (out.new.items
        ≡ out.old.items ++ dimacs_text (clauses_of checker.now.live)) }
{
    add_problem(alloc, checker, out)?;
    add_clauses(checker, out)
}
