// The greatest depth in any unit.
ghost use Rattle.std.specs.Prelude.{length, IfOk};
ghost use Rattle.rules.specs.Program.{Real};
ghost use Rattle.rules.specs.Named.{unit_named};
ghost use Rattle.image.specs.Held.{meant};
ghost use Rattle.certificate.specs.Deepest.{CellsOf, Raised, Highest, Deepened, StackOf};

use crate::real_unit::real_unit;
use measures::survey::survey;
use rules::unit::{Module, NamedUnit};
use std::alloc::{AllocError, Global};
use text::formed::Formed;

// How many cells a depth is; none where it is negative.
fn cells(depth: i32) -> u32
    ensures { CellsOf depth result }
{
    depth.max(0).unsigned_abs()
}

// The larger of a number of cells and the highest depth at a place of a table.
fn raised(so_far: u32, entry: Option<(u32, (i32, i32))>) -> u32
    ensures { Raised entry so_far result }
{
    entry.map_or(so_far, |(_, (_, high))| so_far.max(cells(high)))
}

// The larger of a number of cells and the highest depth in a table.
fn highest_depth(so_far: u32, table: &[Option<(u32, (i32, i32))>]) -> u32
    ensures { Highest table.now (length table.now) so_far result }
{
    // kept: a `fold` would call the same function with the same two values, which is no plainer
    let mut highest = so_far;
    for entry in table {
        highest = raised(highest, *entry);
    }
    highest
}

// The larger of a number of cells and the greatest depth of a unit's routes.
fn deepened(formed: &Formed, id: NamedUnit, so_far: u32, heap: Global) -> Result<u32, AllocError>
    requires { Real (meant formed.now.layout.program) (unit_named id) }
    ensures { IfOk result (λ n. Deepened (meant formed.now.layout.program) (unit_named id) so_far n) }
{
    let unit = real_unit(formed, id);
    let table = survey(&unit, &[], heap)?;
    Ok(highest_depth(so_far, &table))
}

// The greatest depth of the routes of all units: of the modules, and of the mechanisms.
pub fn stack_of(formed: &Formed, heap: Global) -> Result<u32, AllocError>
    ensures { IfOk result (λ n. StackOf (meant formed.now.layout.program) n) }
{
    // kept: one loop over a row of all units would number them and take each number apart again, which is no plainer
    let mut stack = 0;
    for module in &Module::ALL {
        stack = deepened(formed, NamedUnit::Module(*module), stack, heap)?;
    }
    for k in 0..formed.layout.program.activation.len() {
        stack = deepened(formed, NamedUnit::Mechanism(k), stack, heap)?;
    }
    Ok(stack)
}
