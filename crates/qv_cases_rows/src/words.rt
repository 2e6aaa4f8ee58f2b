//! The words of a line, read one by one.

use std::alloc::Global;
use std::mem;
use std::str::FromStr;

/// The words that are left, each behind one blank, and whether those that were read could be.
#[derive(Drop)]
pub struct Words<'a> {
    rest: &'a str,
    are_read: bool,
}

impl<'a> Words<'a> {
    /// The words of a line, between blanks.
    pub fn new(line: &'a str) -> Words<'a> {
        Words {
            rest: line,
            are_read: true,
        }
    }

    /// The next word, which is empty behind the last.
    pub fn next(&mut self) -> &'a str {
        let (word, rest) = self.rest.split_once(' ').unwrap_or((self.rest, ""));
        self.rest = rest;
        word
    }

    /// Whether the next word is this one, which then is read.
    pub fn passes(&mut self, word: &str) -> bool {
        let rest = self.rest;
        let is_next = self.next() == word;
        if !is_next {
            self.rest = rest;
        }
        is_next
    }

    /// The words that are left.
    pub fn rest(&mut self) -> &'a str {
        let rest = self.rest;
        self.rest = "";
        rest
    }

    /// Whether none is left.
    pub fn is_empty(&self) -> bool {
        self.rest.is_empty()
    }

    /// A number, which is the least where the word is none.
    pub fn number<N: FromStr + Default + Drop>(&mut self) -> N
    where
        N::Err: Drop,
    {
        match self.next().parse::<N>() {
            Ok(number) => number,
            Err(_) => {
                self.are_read = false;
                N::default()
            }
        }
    }

    /// What stands beside the next word.
    pub fn pick<'c, C>(&mut self, calls: &'c [(&str, C)]) -> Option<&'c C> {
        find(calls, self.next())
    }

    /// What each of the words is read as that are left.
    pub fn each<T: Drop, F: Fn(&str) -> Option<T>>(&mut self, alloc: Global, read: F) -> Vec<T>
        requires { F.IsAlwaysCallable read }
    {
        let mut all = Vec::new(alloc);
        for word in self.rest().split_ascii_whitespace() {
            let is_kept = add_read(&mut all, read(word));
            self.are_read = self.are_read && is_kept;
        }
        all
    }

    /// Lists that each end with a `0`.
    pub fn lists<T: Drop, F: Fn(&str) -> Option<T>>(
        &mut self,
        alloc: Global,
        read: F,
    ) -> Vec<Vec<T>>
        requires { F.IsAlwaysCallable read }
    {
        let mut all = Vec::new(alloc);
        let mut list = Vec::new(alloc);
        for word in self.rest().split_ascii_whitespace() {
            let is_kept = if word == "0" {
                all.push(mem::replace(&mut list, Vec::new(alloc))).is_ok()
            } else {
                add_read(&mut list, read(word))
            };
            self.are_read = self.are_read && is_kept;
        }
        self.are_read = self.are_read && list.is_empty();
        all
    }

    /// Whether what was asked for was there.
    pub fn are_read(&self) -> bool {
        self.are_read
    }
}

// Adds what was read.
fn add_read<T: Drop>(list: &mut Vec<T>, read: Option<T>) -> bool {
    match read {
        Some(one) => list.push(one).is_ok(),
        None => false,
    }
}

/// What stands beside a word.
pub fn find<'a, C>(calls: &'a [(&str, C)], word: &str) -> Option<&'a C> {
    for (name, call) in calls {
        if *name == word {
            return Some(call);
        }
    }
    None
}
