// All units of a program, one after the other.
ghost use Rattle.std.specs.Prelude.{◌≡◌, ◌+◌, IfOk};
ghost use Rattle.rules.specs.Verdict.{IsBadDepth};
ghost use Rattle.rules.specs.Named.{unit_named};
ghost use Rattle.image.specs.Held.{meant};
ghost use Rattle.text.specs.Finds.{Finds};
ghost use Rattle.verdict.specs.Units.{nth_unit, earliest, IsBadAmong};

use crate::depths::first_bad_depth;
use rules::unit::{Module, NamedUnit};
use std::alloc::{AllocError, Global};
use text::formed::Formed;
use walk::units::named_text;

/// The unit of a number in the row of units: the seven modules, then the mechanisms.
fn unit_at(i: usize) -> NamedUnit
    ensures { unit_named result ≡ nth_unit i }
{
    match Module::try_from(i) {
        Ok(module) => NamedUnit::Module(module),
        Err(_) => NamedUnit::Mechanism(i - 7),
    }
}

/// The earlier of two places.
fn earlier(a: Option<usize>, b: Option<usize>) -> Option<usize>
    ensures { result ≡ earliest a b }
{
    a.into_iter().chain(b).min()
}

/// Takes the bad places of one unit more into the first bad place so far.
fn with_unit(
    formed: &Formed,
    i: usize,
    first: Option<usize>,
    heap: Global,
) -> Result<Option<usize>, AllocError>
    requires { Finds (IsBadAmong (meant formed.now.layout.program) i) first }
    ensures { IfOk result (λ o. Finds (IsBadAmong (meant formed.now.layout.program) (i + 1)) o) }
{
    let Some(unit) = named_text(formed, unit_at(i)) else {
        return Ok(first);
    };
    let found = first_bad_depth(&unit, heap)?;
    Ok(earlier(first, found))
}

/// The first line of the whole text at which the depths of routes differ or do not serve.
pub(crate) fn first_bad_line(formed: &Formed, heap: Global) -> Result<Option<usize>, AllocError>
    ensures { IfOk result (λ o. Finds (IsBadDepth (meant formed.now.layout.program)) o) }
{
    // kept: `try_fold` would carry the same value through a closure that calls the same function, which is no plainer
    let mut first = None;
    for i in 0..formed.layout.program.activation.len() + 7 {
        first = with_unit(formed, i, first, heap)?;
    }
    Ok(first)
}
