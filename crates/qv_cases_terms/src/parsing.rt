//! Leaves, quantifiers, operators and words: `c0:8`, `v1:bool`, `8:ff`, `All:0:8` and
//! `extract:3:0`.

ghost use Rattle.std.specs.Prelude.{IfSome, All};
ghost use Rattle.qv_words.specs.Sort.{IsLawful};

use qv_sorts::op_named;
use qv_words::{Op, Sort, Word};
use std::alloc::Global;

// A leaf.
#[derive(Clone, Copy)]
pub(crate) enum Leaf {
    Const(u64, Sort),
    Var(u64, Sort),
    Lit(Word),
}

pub(crate) fn read_leaf(text: &str) -> Option<Leaf> {
    let (first, behind) = text.split_once(':')?;
    if let Some(index) = first.strip_prefix('c') {
        return Some(Leaf::Const(index.parse::<u64>().ok()?, sort(behind)?));
    }
    if let Some(level) = first.strip_prefix('v') {
        return Some(Leaf::Var(level.parse::<u64>().ok()?, sort(behind)?));
    }
    Some(Leaf::Lit(word(text)?))
}

// A quantifier over the variable of a level.
#[derive(Clone, Copy)]
pub(crate) enum Binder {
    All(u64, Sort),
    Ex(u64, Sort),
}

pub(crate) fn read_binder(text: &str) -> Option<Binder> {
    let (name, behind) = text.split_once(':')?;
    let (level, of) = behind.split_once(':')?;
    let level = level.parse::<u64>().ok()?;
    match name {
        "All" => Some(Binder::All(level, sort(of)?)),
        "Ex" => Some(Binder::Ex(level, sort(of)?)),
        _ => None,
    }
}

/// A word by its sort and its value, in hexadecimal digits.
pub fn word(text: &str) -> Option<Word> {
    let (of, value) = text.split_once(':')?;
    Word::new(sort(of)?, u128::from_str_radix(value, 16).ok()?)
}

/// Words, with blanks between them.
pub fn words(alloc: Global, text: &str) -> Option<Vec<Word>> {
    let mut words = Vec::new(alloc);
    for item in text.split_whitespace() {
        words.push(word(item)?).ok()?;
    }
    Some(words)
}

/// A sort: `bool`, or a width.
pub fn sort(text: &str) -> Option<Sort>
    ensures { IfSome result IsLawful }
{
    if text == "bool" {
        return Some(Sort::Bool);
    }
    Sort::bits(text.parse::<u128>().ok()?)
}

/// Sorts, with blanks between them.
pub fn sorts(alloc: Global, text: &str) -> Option<Vec<Sort>>
    ensures { IfSome result (λ sorts. All IsLawful sorts.items) }
{
    let mut sorts = Vec::new(alloc);
    'words: for word in text.split_whitespace() {
        sorts.push(sort(word)?).ok()?;
    }
    Some(sorts)
}

/// An operator by its name and its indices.
pub fn operator(alloc: Global, text: &str) -> Option<Op> {
    let (name, behind) = match text.split_once(':') {
        Some((name, behind)) => (name, behind),
        None => (text, ""),
    };
    let mut indices = Vec::new(alloc);
    for index in behind.split(':') {
        if !index.is_empty() {
            indices.push(index.parse::<u128>().ok()?).ok()?;
        }
    }
    op_named(name.as_bytes(), &indices).ok()
}
