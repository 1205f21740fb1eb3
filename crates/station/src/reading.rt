// Files that are read line by line.
use crate::failure::Failure;
use std::alloc::{AllocError, Global};
use std::fs;
use thiserror::Error;

/// Why a line is not taken in: what is wrong with it, or want of memory.
#[derive(Debug, Drop, Error)]
pub(crate) enum Misread {
    #[error("{0}")]
    Wrong(#[from] &'static str),
    #[error("out of memory")]
    Memory(#[from(alloc)] AllocError),
}

/// What is read from a file line by line.
pub(crate) trait FromLines: Drop {
    /// What is read from an empty file.
    fn empty(heap: Global) -> Self;

    /// Takes in a line that is freed of its comment.
    fn take(&mut self, line: &str) -> Result<(), Misread>;
}

/// A line without what follows `;`.
fn without_comment(line: &str) -> &str {
    line.split_once(';').map_or(line, |(before, _)| before)
}

/// What a file says, line by line, without what follows `;` in a line.
pub(crate) fn read_lines<T: FromLines>(rt: &HostRuntime, file: String) -> Result<T, Failure> {
    let Ok(bytes) = fs::read(rt, file.as_str()) else {
        return Err(Failure::Wrong(file, "cannot be read"));
    };
    let Ok(text) = String::from_utf8(bytes) else {
        return Err(Failure::Wrong(file, "is no text"));
    };
    let mut read = T::empty(rt.alloc());
    for (number, line) in (1..).zip(text.lines()) {
        match read.take(without_comment(line)) {
            Ok(()) => {}
            Err(Misread::Wrong(what)) => return Err(Failure::WrongLine(file, number, what)),
            Err(Misread::Memory(e)) => return Err(Failure::from(e)),
        }
    }
    Ok(read)
}
