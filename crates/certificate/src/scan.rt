// The routes of a longest scan.
ghost use Rattle.std.specs.Prelude.{reverse, IfOk};
ghost use Rattle.rules.specs.Program.{Real};
ghost use Rattle.rules.specs.Named.{unit_named};
ghost use Rattle.image.specs.Held.{meant};
ghost use Rattle.measures.specs.Meaning.{BoundsHold};
ghost use Rattle.certificate.specs.Longest.{Longest};
ghost use Rattle.certificate.specs.Scans.{LongerBlock, MechanismRoutes, ScanRoutes};

use crate::bounds::{bound_of, mechanism_bounds};
use crate::contents::LongestScan;
use crate::real_unit::real_unit;
use crate::routes::longest_route;
use rules::unit::{Module, NamedUnit};
use std::alloc::{AllocError, Global};
use text::formed::Formed;
use verdict::accepted::Accepted;

// A longest route of a unit that the program has.
fn route_of(
    formed: &Formed,
    id: NamedUnit,
    bounds: &[u32],
    heap: Global,
) -> Result<Vec<usize>, AllocError>
    requires real { Real (meant formed.now.layout.program) (unit_named id) }
    requires bounded { BoundsHold (meant formed.now.layout.program) (unit_named id) bounds.now }
    ensures { IfOk result (λ v. Longest (meant formed.now.layout.program) (unit_named id) (reverse v.items)) }
{
    let unit = real_unit(formed, id);
    longest_route(&unit, bounds, heap)
}

// A longest route of each mechanism.
fn mechanism_routes(formed: &Formed, heap: Global) -> Result<Vec<Vec<usize>>, AllocError>
    ensures { IfOk result (λ v. MechanismRoutes (meant formed.now.layout.program) v.items) }
{
    (0..formed.layout.program.activation.len())
        .map(|k| route_of(formed, NamedUnit::Mechanism(k), &[], heap))
        .try_collect(heap)
}

// BLOCK_INIT or BLOCK_DONE, whichever has the longer route.
fn longer_block(formed: &Formed, heap: Global) -> Result<Module, AllocError>
    ensures { IfOk result (λ m. LongerBlock (meant formed.now.layout.program) m) }
{
    let block_init = bound_of(formed, NamedUnit::Module(Module::BlockInit), &[], heap)?;
    let block_done = bound_of(formed, NamedUnit::Module(Module::BlockDone), &[], heap)?;
    Ok(if block_init < block_done {
        Module::BlockDone
    } else {
        Module::BlockInit
    })
}

/// The routes of one longest scan of an accepted program: together they have as many steps as the certificate says.
pub fn longest_scan(program: &Accepted, heap: Global) -> Result<LongestScan, AllocError>
    ensures { IfOk result (λ s. ScanRoutes (meant program.now.formed.layout.program) s) }
{
    let formed = &program.formed;
    let bounds = mechanism_bounds(formed, heap)?;
    let input = route_of(formed, NamedUnit::Module(Module::Input), &bounds, heap)?;
    let block_module = longer_block(formed, heap)?;
    let block = route_of(formed, NamedUnit::Module(block_module), &bounds, heap)?;
    let main = route_of(formed, NamedUnit::Module(Module::Main), &bounds, heap)?;
    let mechanisms = mechanism_routes(formed, heap)?;
    Ok(LongestScan {
        input,
        block_module,
        block,
        main,
        mechanisms,
    })
}
