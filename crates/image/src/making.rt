// Makes the program that an image holds.
ghost use Rattle.std.specs.Prelude.{◌≡◌, ◌/◌, length, IfOk};
ghost use Rattle.rules.specs.Number.{Bytes};
ghost use Rattle.rules.specs.Image.{pairs_from, line_from, lines_from, program_of};
ghost use Rattle.image.specs.Held.{meant};

use crate::program::Program;
use crate::sections::Image;
use rules::line::Line;
use std::alloc::{AllocError, Global};

// A copy of a part, whose numbers are bytes.
// kept: tried without it; in `program` it stayed open that the copied numbers are below 256, since nothing tells that of a field behind a reference.
fn read_bytes(heap: Global, bytes: &[u8]) -> Result<Vec<u8>, AllocError>
    ensures { IfOk result (λ v. (v.items ≡ bytes.now) × Bytes v.items) }
{
    Vec::from_slice(heap, bytes)
}

// The numbers of a part, two bytes each.
fn read_pairs(heap: Global, bytes: &[u8]) -> Result<Vec<u16>, AllocError>
    ensures { IfOk result (λ v. v.items ≡ pairs_from bytes.now 0 (length bytes.now / 2)) }
{
    let (records, _) = bytes.as_chunks::<2>();
    records
        .iter()
        .map(|record| u16::from_le_bytes(*record))
        .collect(heap)
}

// The line in a record: code, mode and operand.
fn line_of(bytes: [u8; 4]) -> Line
    ensures { result ≡ line_from bytes 0 }
{
    let [code, mode, lo, hi] = bytes;
    Line {
        code,
        mode,
        operand: u16::from_le_bytes([lo, hi]),
    }
}

// The lines of a part, four bytes each.
fn read_lines(heap: Global, bytes: &[u8]) -> Result<Vec<Line>, AllocError>
    ensures { IfOk result (λ v. v.items ≡ lines_from bytes.now 0 (length bytes.now / 4)) }
{
    let (records, _) = bytes.as_chunks::<4>();
    records.iter().map(|record| line_of(*record)).collect(heap)
}

impl Image<'_> {
    /// The program that the image holds.
    pub fn program(&self, heap: Global) -> Result<Program, AllocError>
        ensures { IfOk result (λ p. meant p ≡ program_of self.now.bytes.now) }
    {
        let initial = read_bytes(heap, self.data.part().bytes)?;
        let activation = read_pairs(heap, self.mechanisms.part().bytes)?;
        let lengths = read_pairs(heap, self.modules.part().bytes)?;
        let lines = read_lines(heap, self.lines.part().bytes)?;
        Ok(Program {
            initial,
            activation,
            lengths,
            lines,
        })
    }
}
