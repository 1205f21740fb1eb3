// The longest routes: the greatest number of steps of each mechanism's routes, and of a scan's.
ghost use Rattle.std.specs.Prelude.{IfOk};
ghost use Rattle.rules.specs.Program.{Real};
ghost use Rattle.rules.specs.Route.{Takes, ScanTakes, Greatest};
ghost use Rattle.rules.specs.Named.{unit_named};
ghost use Rattle.image.specs.Held.{meant};
ghost use Rattle.measures.specs.Meaning.{BoundsHold};
ghost use Rattle.certificate.specs.Longest.{MechanismBounds};

use crate::real_unit::real_unit;
use measures::survey::unit_bound;
use rules::unit::{Module, NamedUnit};
use std::alloc::{AllocError, Global};
use text::formed::Formed;

// The greatest number of steps of a unit's routes.
// kept: `formed`, `bounds` and `heap` stay parameters: what is asked of the bounds names routes, and there may be several with the most
// steps, so a type could only keep that such routes exist, from which `unit_bound`'s `requires` does not follow
pub(crate) fn bound_of(
    formed: &Formed,
    id: NamedUnit,
    bounds: &[u32],
    heap: Global,
) -> Result<u32, AllocError>
    requires real { Real (meant formed.now.layout.program) (unit_named id) }
    requires bounded { BoundsHold (meant formed.now.layout.program) (unit_named id) bounds.now }
    ensures { IfOk result (λ n. Greatest (Takes (meant formed.now.layout.program) (unit_named id)) n) }
{
    let unit = real_unit(formed, id);
    unit_bound(&unit, bounds, heap)
}

/// The greatest number of steps of each mechanism's routes, in the order of the mechanisms.
pub fn mechanism_bounds(formed: &Formed, heap: Global) -> Result<Vec<u32>, AllocError>
    ensures { IfOk result (λ v. MechanismBounds (meant formed.now.layout.program) v.items) }
{
    (0..formed.layout.program.activation.len())
        .map(|k| bound_of(formed, NamedUnit::Mechanism(k), &[], heap))
        .try_collect(heap)
}

/// The greatest number of steps of a scan's routes: of INPUT, of BLOCK_INIT or BLOCK_DONE, whichever has more, and of MAIN with its
/// mechanisms.
pub fn scan_bound(formed: &Formed, heap: Global) -> Result<u32, AllocError>
    ensures { IfOk result (λ n. Greatest (ScanTakes (meant formed.now.layout.program)) n) }
{
    let bounds = mechanism_bounds(formed, heap)?;
    let input = bound_of(formed, NamedUnit::Module(Module::Input), &bounds, heap)?;
    let block_init = bound_of(formed, NamedUnit::Module(Module::BlockInit), &bounds, heap)?;
    let block_done = bound_of(formed, NamedUnit::Module(Module::BlockDone), &bounds, heap)?;
    let main = bound_of(formed, NamedUnit::Module(Module::Main), &bounds, heap)?;
    Ok(input + block_init.max(block_done) + main)
}
