// What the certificate asks of a unit's routes.
ghost use Rattle.std.specs.Prelude.{IfOk};
ghost use Rattle.rules.specs.Route.{Takes, Greatest};
ghost use Rattle.walk.specs.UnitTexts.{program_of, id_of};
ghost use Rattle.measures.specs.Meaning.{BoundsHold, Surveyed, InitialisedByAll, TellsLeftOut};

use crate::both::Both;
use crate::depth::Depth;
use crate::initialised::Initialised;
use crate::mechanism_set::MechanismSet;
use crate::steps::Steps;
use std::alloc::{AllocError, Global};
use walk::table::walk;
use walk::unit_text::UnitText;
use walk::whole::total;

/// The steps with the depths at each own line of the unit and at its end: the greatest number of steps, and the lowest and the highest
/// depth, with which a route comes there. The steps of MAIN ask for the bounds of the mechanisms.
pub fn survey(
    unit: &UnitText<'_>,
    bounds: &[u32],
    heap: Global,
) -> Result<Vec<Option<(u32, (i32, i32))>>, AllocError>
    ensures { IfOk result (λ t. Surveyed (program_of unit.now) (id_of unit.now) bounds.now t.items) }
{
    let both = Both {
        first: Steps { bounds },
        second: Depth {
            marks: &unit.formed.layout.marks,
        },
    };
    walk(&both, unit, heap)
}

/// The unit's bound: the greatest number of steps of its whole routes.
pub fn unit_bound(unit: &UnitText<'_>, bounds: &[u32], heap: Global) -> Result<u32, AllocError>
    requires { BoundsHold (program_of unit.now) (id_of unit.now) bounds.now }
    ensures { IfOk result (λ n. Greatest (Takes (program_of unit.now) (id_of unit.now)) n) }
{
    let steps = Steps { bounds };
    let table = walk(&steps, unit, heap)?;
    Ok(total(&steps, unit, &table))
}

/// The mechanisms that every route to the unit's end initialises.
pub fn initialised_by_all(unit: &UnitText<'_>, heap: Global) -> Result<MechanismSet, AllocError>
    ensures { IfOk result (λ s. InitialisedByAll (program_of unit.now) (id_of unit.now) s) }
{
    let table = walk(&Initialised, unit, heap)?;
    Ok(table[unit.end - unit.first].unwrap())
}

/// Whether every route to the unit's end initialises every mechanism of the program.
pub fn initialises_all(unit: &UnitText<'_>, heap: Global) -> Result<bool, AllocError>
    ensures { IfOk result (λ all. TellsLeftOut (program_of unit.now) (id_of unit.now) all) }
{
    let set = initialised_by_all(unit, heap)?;
    Ok((0..unit.formed.layout.program.activation.len()).all(|k| set.holds(k)))
}
