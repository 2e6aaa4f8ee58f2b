//! A checker is given the clauses of a CNF text.

ghost use Rattle.std.specs.Prelude.{◌≡◌, [], IfOk, OnOk};
ghost use Rattle.qv_cnf.specs.Refutation.{standing_at};
ghost use Rattle.qv_cert_formulas.specs.Numbers.{under_ids};

use qv_cnf::Packed;
use qv_dimacs::Dimacs;
use qv_rup::Checker;
use std::alloc::{AllocError, Global};

/// A checker that was given the clauses, whose ids count from 1.
pub(crate) fn checker_of(alloc: Global, cnf: Dimacs) -> Result<Checker, AllocError>
    ensures { IfOk result (λ checker. checker ≡ standing_at (under_ids 1 cnf.clauses)) }
{
    let mut checker = Checker::new(alloc);
    give_all(&mut checker, &cnf.clauses)?;
    Ok(checker)
}

// Gives the clauses, whose ids count from 1.
fn give_all(checker: &mut Checker, clauses: &Packed) -> Result<(), AllocError>
    requires { checker.old ≡ standing_at [] }
    ensures { OnOk result (checker.new ≡ standing_at (under_ids 1 clauses.now)) }
{
    'clauses: for at in 0..clauses.len() {
        match checker.original(at as u64 + 1, clauses.get(at)) {
            Ok(()) => {}
            // The ids rise, so that only memory can be wanting.
            Err(_fault) => return Err(AllocError),
        }
    }
    Ok(())
}
