// Call files: one call a line.
use crate::reading::{FromLines, Misread};
use session::call::SessionCall;
use std::alloc::Global;
use std::iter;

/// How many calls a file may ask for.
const MOST_CALLS: usize = 100_000_000;

/// The calls of a session before its halt, and whether a halt ends it.
#[derive(Drop)]
pub(crate) struct Calls {
    // kept: no plainer, as the list and whether a halt follows it are what a session is conducted by
    pub(crate) list: Vec<SessionCall>,
    pub(crate) halts: bool,
}

/// What a line of a call file asks for.
#[derive(Clone, Copy)]
enum Asked {
    Times(SessionCall, usize),
    Halt,
}

/// The count that may stand after `scan`.
fn count_of(word: &str) -> Result<usize, &'static str> {
    match word.parse::<usize>() {
        Ok(0) => Err("the count of scans is 0"),
        Ok(count) if count <= MOST_CALLS => Ok(count),
        Ok(_) => Err("more than 100000000 calls"),
        Err(_) => Err("the count of scans is no number, or is too large"),
    }
}

/// What a line asks for, by its words, or none where it has none.
fn asked_by(line: &str) -> Result<Option<Asked>, &'static str> {
    let mut words = line.split_whitespace();
    let Some(call) = words.next() else {
        return Ok(None);
    };
    let asked = match (call, words.next(), words.next()) {
        ("scan", None, None) => Asked::Times(SessionCall::Scan, 1),
        ("scan", Some(word), None) => Asked::Times(SessionCall::Scan, count_of(word)?),
        ("clear", None, None) => Asked::Times(SessionCall::Clear, 1),
        ("block", None, None) => Asked::Times(SessionCall::BlockStart, 1),
        ("position", None, None) => Asked::Times(SessionCall::PositionReport, 1),
        ("halt", None, None) => Asked::Halt,
        ("scan" | "clear" | "block" | "position" | "halt", _, _) => {
            return Err("too many words after the call");
        }
        _ => return Err("no such call: scan, clear, block, position or halt is expected"),
    };
    Ok(Some(asked))
}

impl FromLines for Calls {
    /// No calls, and no halt.
    fn empty(heap: Global) -> Calls {
        Calls {
            list: Vec::new(heap),
            halts: false,
        }
    }

    /// Adds what a line asks for; an empty line is passed over.
    fn take(&mut self, line: &str) -> Result<(), Misread> {
        let Some(asked) = asked_by(line)? else {
            return Ok(());
        };
        if self.halts {
            return Err(Misread::Wrong("something follows the halt"));
        }
        match asked {
            Asked::Halt => self.halts = true,
            Asked::Times(call, times) => {
                if MOST_CALLS.saturating_sub(self.list.len()) < times {
                    return Err(Misread::Wrong("more than 100000000 calls"));
                }
                self.list.extend(iter::repeat_n(call, times))?;
            }
        }
        Ok(())
    }
}
