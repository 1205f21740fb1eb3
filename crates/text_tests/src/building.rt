// Programs made of lines written out, for the tests.
ghost use Rattle.std.specs.Prelude.{◌≡◌, ℕ, ◌<◌, true, length, IfSome, IfOk, slice_index};
ghost use Rattle.rules.specs.Program.{total};
ghost use Rattle.text_tests.specs.Built.{Built};

use image::program::Program;
use rules::line::Line;
use std::alloc::{AllocError, Global};

// Whether each activation bit is one of the 144 bits of 18 data bytes.
fn bits_inside(activation: &[u16]) -> bool
    ensures { result ≡ true → (k : ℕ) → k < length activation.now → slice_index activation.now k < 144 }
{
    activation.iter().all(|bit| *bit < 144)
}

// The number of lines of all modules.
fn total(lengths: &[u16]) -> usize
    requires { length lengths.now ≡ 7 }
    ensures { result ≡ total lengths.now }
{
    lengths.iter().map(|n| usize::from(*n)).sum()
}

/// The program with 18 data bytes of 0, the activation bits, the lengths of the seven modules and the lines given, or none where it has not
/// the shape of a program.
pub fn program(
    heap: Global,
    activation: &[u16],
    lengths: &[u16],
    lines: &[Line],
) -> Result<Option<Program>, AllocError>
    ensures { IfOk result (λ o. IfSome o (λ p. Built p activation.now lengths.now lines.now)) }
{
    if lengths.len() != 7 || activation.len() > 32 || lines.len() > 2048 {
        return Ok(None);
    }
    if !bits_inside(activation) || total(lengths) != lines.len() {
        return Ok(None);
    }
    let initial = vec![in heap; 0; 18]?;
    let activation = Vec::from_slice(heap, activation)?;
    let lengths = Vec::from_slice(heap, lengths)?;
    let lines = Vec::from_slice(heap, lines)?;
    Ok(Some(Program {
        initial,
        activation,
        lengths,
        lines,
    }))
}
