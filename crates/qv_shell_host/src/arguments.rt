//! The words behind the program's name, which is never read: a path needn't be UTF-8.
ghost use Rattle.std.specs.Prelude.{◌≤◌};

use std::alloc::AllocError;
use std::env;
use std::env::{Env, FillError};
use std::io::ErrorKind;

// The words as an environment's arguments, without the program's name in front of them.
#[derive(Drop)]
struct Behind<'a, E> {
    env: &'a E,
}

impl<E: Env> Env for Behind<'_, E> {
    fn arg(&self, i: usize, buf: &mut [u8]) -> Result<usize, FillError> {
        self.env.arg(i.saturating_add(1), buf)
    }

    fn var(&self, name: &str, buf: &mut [u8]) -> Result<usize, FillError> {
        self.env.var(name, buf)
    }

    fn var_at(&self, i: usize, buf: &mut [u8]) -> Result<usize, FillError> {
        self.env.var_at(i, buf)
    }
}

/// The words, if all of them are UTF-8.
pub fn words(rt: &(impl Env + AllocGlobal)) -> Result<Option<Vec<String>>, AllocError> {
    match env::args(&(Behind { env: rt }, rt.alloc())) {
        Ok(all) => {
            let mut words = Vec::new(rt.alloc());
            for word in all {
                words.push(word)?;
            }
            Ok(Some(words))
        }
        Err(error) if error.kind() == ErrorKind::OutOfMemory => Err(AllocError),
        Err(_) => Ok(None),
    }
}
