//! Operators and sorts, as cases write them: `extract:3:0`, and `bool` or a width.

ghost use Rattle.std.specs.Prelude.{IfSome, All};
ghost use Rattle.qv_words.specs.Sort.{IsLawful};

use qv_cnf::Lit;
use qv_sorts::op_named;
use qv_words::{Op, Sort};
use std::alloc::Global;

/// A sort.
pub fn sort(text: &str) -> Option<Sort>
    ensures { IfSome result IsLawful }
{
    if text == "bool" {
        return Some(Sort::Bool);
    }
    Sort::bits(text.parse::<u128>().ok()?)
}

/// Sorts, with blanks between them.
pub fn sorts(alloc: Global, text: &str) -> Option<Vec<Sort>>
    ensures { IfSome result (λ sorts. All IsLawful sorts.items) }
{
    let mut sorts = Vec::new(alloc);
    'words: for word in text.split_whitespace() {
        sorts.push(sort(word)?).ok()?;
    }
    Some(sorts)
}

/// An operator by its name and its indices.
pub fn operator(alloc: Global, text: &str) -> Option<Op> {
    let (name, behind) = text.split_once(':').unwrap_or((text, ""));
    let mut indices = Vec::new(alloc);
    for index in behind.split(':') {
        if !index.is_empty() {
            indices.push(index.parse::<u128>().ok()?).ok()?;
        }
    }
    op_named(name.as_bytes(), &indices).ok()
}

// Literals, with blanks between them.
fn literals(alloc: Global, text: &str) -> Option<Vec<Lit>> {
    let mut lits = Vec::new(alloc);
    for word in text.split_whitespace() {
        lits.push(Lit::new(word.parse::<i32>().ok()?)?).ok()?;
    }
    Some(lits)
}

/// Lists of literals, with a `/` between them.
pub fn lists(alloc: Global, text: &str) -> Option<Vec<Vec<Lit>>> {
    let mut lists = Vec::new(alloc);
    for part in text.split('/') {
        lists.push(literals(alloc, part)?).ok()?;
    }
    Some(lists)
}
