// The memory that a start sets.
ghost use Rattle.std.specs.Prelude.{◌≡◌, IfOk};
ghost use Rattle.rules.specs.Session.{first_lines, fresh};
ghost use Rattle.machine.specs.Views.{program_of, memory_of};

use crate::memory::Memory;
use crate::units::mechanism_first;
use rules::unit::Module;
use std::alloc::{AllocError, Global};
use verdict::accepted::Accepted;

// The points of the mechanisms, each at its first line.
fn first_points(program: &Accepted, heap: Global) -> Result<Vec<usize>, AllocError>
    ensures { IfOk result (λ v. v.items ≡ first_lines (program_of program.now) 0 (program_of program.now).activation) }
{
    (0..program.formed.layout.program.activation.len())
        .map(|mechanism| mechanism_first(program, mechanism))
        .collect(heap)
}

/// The memory that a start sets: the initial bytes, and all points at first lines.
pub fn fresh(program: &Accepted, heap: Global) -> Result<Memory, AllocError>
    ensures { IfOk result (λ m. memory_of m ≡ fresh (program_of program.now)) }
{
    let formed = &program.formed;
    Ok(Memory {
        bytes: Vec::from_slice(heap, &formed.layout.program.initial)?,
        init_point: formed.layout.start_of(Module::BlockInit),
        done_point: formed.layout.start_of(Module::BlockDone),
        points: first_points(program, heap)?,
    })
}
