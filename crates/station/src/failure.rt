// Why the station ends with status 1, and what it says then.
use crate::refusals::Explained;
use image::fault::ImageFault;
use rules::refusal::Refusal;
use std::alloc::AllocError;
use std::io;
use thiserror::Error;
use verdict::fault::LoadFault;

/// A failure of the station.
#[derive(Debug, Drop, Error)]
pub(crate) enum Failure {
    /// the program is refused
    #[error("{0}")]
    Refused(Explained),
    /// the arguments as a whole ask for nothing that the station does
    #[error("{0}; see `station help`")]
    Usage(&'static str),
    /// an argument or a file, and what is wrong with it
    #[error("{0}: {1}")]
    Wrong(String, &'static str),
    /// a file, a line of it counted from 1, and what is wrong there
    #[error("{0}:{1}: {2}")]
    WrongLine(String, usize, &'static str),
    /// memory is wanting
    #[error("out of memory")]
    Memory(#[from(alloc)] AllocError),
    /// the output cannot be written
    #[error("the output cannot be written")]
    Unwritable,
}

// kept: no plainer, as a derived conversion can't tell want of memory from an output that can't be written
impl From<io::Error> for Failure {
    fn from(e: io::Error) -> Failure {
        match e.kind() {
            io::ErrorKind::OutOfMemory => Failure::Memory(AllocError),
            _ => Failure::Unwritable,
        }
    }
}

impl From<Refusal> for Failure {
    fn from(refusal: Refusal) -> Failure {
        Failure::Refused(Explained(refusal))
    }
}

impl From<ImageFault> for Failure {
    fn from(fault: ImageFault) -> Failure {
        Failure::from(Refusal::from(fault))
    }
}

impl From<LoadFault> for Failure {
    fn from(fault: LoadFault) -> Failure {
        match fault.refusal() {
            Some(refusal) => Failure::from(refusal),
            None => Failure::Memory(AllocError),
        }
    }
}

impl Failure {
    /// A refusal goes to standard output, anything else as one line to standard error.
    pub(crate) fn tell(&self, rt: &HostRuntime) {
        let _ = match self {
            Failure::Refused(refusal) => println!(rt; "{refusal}"),
            _ => eprintln!(rt; "station: {self}"),
        };
    }
}
