// The null program, which a place holds before anything is loaded.
ghost use Rattle.std.specs.Prelude.{◌≡◌, IfOk};
ghost use Rattle.rules.specs.Program.{null_program};
ghost use Rattle.image.specs.Held.{meant};

use crate::accepted::Accepted;
use image::program::Program;
use std::alloc::{AllocError, Global};
use text::formed::Formed;
use text::layout::Layout;

/// The null program: 17 zero data bytes, no mechanism, and seven modules without a line.
pub(crate) fn null_program(heap: Global) -> Result<Accepted, AllocError>
    ensures { IfOk result (λ a. meant a.formed.layout.program ≡ null_program) }
{
    let initial = vec![in heap; 0; 17]?;
    let lengths = vec![in heap; 0; 7]?;
    let starts = vec![in heap; 0; 8]?;
    let program = Program {
        initial,
        activation: Vec::new(heap),
        lengths,
        lines: Vec::new(heap),
    };
    let layout = Layout {
        program,
        starts,
        brackets: Vec::new(heap),
        marks: Vec::new(heap),
    };
    Ok(Accepted {
        formed: Formed { layout },
    })
}
