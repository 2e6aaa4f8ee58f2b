//! Problems in the DIMACS format.

use qv_cnf::Lit;
use std::alloc::Global;

/// The clauses of a problem, as its lines come.
#[derive(Drop)]
pub(crate) struct Problem {
    alloc: Global,
    clauses: Vec<Vec<Lit>>,
    // The literals of a clause that isn't closed yet.
    open: Vec<Lit>,
    // How many clauses its first line says it has.
    promised: usize,
}

impl Problem {
    /// With no clause.
    pub(crate) fn new(alloc: Global) -> Problem {
        Problem {
            alloc,
            clauses: Vec::new(alloc),
            open: Vec::new(alloc),
            promised: 0,
        }
    }

    /// Becomes a problem that has only its first line, which promises so many clauses.
    pub(crate) fn begin(&mut self, promised: usize) {
        self.clauses.clear();
        self.open.clear();
        self.promised = promised;
    }

    /// Takes literals of clauses, each of which ends with a 0. Stops at the first word that is
    /// none.
    pub(crate) fn read(&mut self, first: &str, others: &str) -> bool {
        if !self.take(first) {
            return false;
        }
        for word in others.split_ascii_whitespace() {
            if !self.take(word) {
                return false;
            }
        }
        true
    }

    fn take(&mut self, word: &str) -> bool {
        match word.parse::<i32>() {
            Ok(0) => self.close(),
            Ok(number) => self.push(Lit::new(number)),
            Err(_) => false,
        }
    }

    fn push(&mut self, lit: Option<Lit>) -> bool {
        match lit {
            Some(lit) => self.open.push(lit).is_ok(),
            None => false,
        }
    }

    fn close(&mut self) -> bool {
        let is_kept = match Vec::from_slice(self.alloc, &self.open) {
            Ok(lits) => self.clauses.push(lits).is_ok(),
            Err(_) => false,
        };
        self.open.clear();
        is_kept
    }

    /// The clauses, when all are there.
    pub(crate) fn clauses(&self) -> Option<&[Vec<Lit>]> {
        if self.open.is_empty() && self.clauses.len() == self.promised {
            Some(&self.clauses)
        } else {
            None
        }
    }
}
