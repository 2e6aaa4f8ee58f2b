//! The answer to a line, which remembers what failed.

use std::alloc::{AllocError, Global};
use std::fmt::{Debug, Display, Write};

/// What is said of a line so far. What can't be kept, for want of memory, is remembered.
#[derive(Drop)]
pub struct Answer {
    text: String,
    is_kept: bool,
    is_case: bool,
}

impl Answer {
    /// Nothing was said yet.
    pub fn new(alloc: Global) -> Answer {
        Answer {
            text: String::new(alloc),
            is_kept: true,
            is_case: true,
        }
    }

    /// Adds a text.
    pub fn say(&mut self, text: &str) {
        let kept = self.text.push_str(text).is_ok();
        self.is_kept = self.is_kept && kept;
    }

    /// Adds a letter.
    pub fn put(&mut self, letter: char) {
        let kept = self.text.push(letter).is_ok();
        self.is_kept = self.is_kept && kept;
    }

    /// Adds a number in hexadecimal digits.
    pub fn hex(&mut self, number: u128) {
        let kept = write!(self.text, "{number:x}").is_ok();
        self.is_kept = self.is_kept && kept;
    }

    /// Adds a byte by its two hexadecimal digits: `\x0f`.
    pub fn escape(&mut self, byte: u8) {
        let kept = write!(self.text, "\\x{byte:02x}").is_ok();
        self.is_kept = self.is_kept && kept;
    }

    /// Adds what a value shows.
    pub fn show<T: Display + Drop>(&mut self, value: T) {
        let kept = write!(self.text, "{value}").is_ok();
        self.is_kept = self.is_kept && kept;
    }

    /// Adds how a value is written in the code.
    pub fn debug<T: Debug + Drop>(&mut self, value: T) {
        let kept = write!(self.text, "{value:?}").is_ok();
        self.is_kept = self.is_kept && kept;
    }

    /// Adds a word that is there. With none the line is no case.
    pub fn give(&mut self, word: Option<&str>) {
        match word {
            Some(word) => self.say(word),
            None => self.refuse(),
        }
    }

    /// Says `ok`, where it was done. If not, the line is no case.
    pub fn done(&mut self, was: bool) {
        self.give(if was { Some("ok") } else { None });
    }

    /// The line is no case.
    pub fn refuse(&mut self) {
        self.is_case = false;
    }

    /// The line that is printed: `bad case`, where it is none.
    pub fn line(self, alloc: Global, are_read: bool) -> Result<String, AllocError> {
        if !self.is_kept {
            return Err(AllocError);
        }
        if self.is_case && are_read {
            Ok(self.text)
        } else {
            String::from_str(alloc, "bad case")
        }
    }
}
