// Whether INIT and CLEAR initialise every mechanism.
ghost use Rattle.std.specs.Prelude.{MatchResult};
ghost use Rattle.rules.specs.Verdict.{MissesInit};
ghost use Rattle.rules.specs.Named.{module_number};
ghost use Rattle.image.specs.Held.{meant};
ghost use Rattle.verdict.specs.Judged.{TellsMissed};

use measures::survey::initialises_all;
use rules::unit::{Module, NamedUnit};
use std::alloc::Global;
use text::fault::{CheckFault, TextFault};
use text::formed::Formed;
use walk::units::named_text;

/// Refuses a formed program where a route of a module comes to its end and leaves a mechanism uninitialised.
pub(crate) fn initialised(formed: &Formed, module: Module, heap: Global) -> Result<(), CheckFault>
    ensures { MatchResult result (λ _. MissesInit (meant formed.now.layout.program) (module_number «module») → ⊥) (λ e. TellsMissed (meant formed.now.layout.program) (module_number «module») e) }
{
    let unit = named_text(formed, NamedUnit::Module(module)).unwrap();
    if initialises_all(&unit, heap)? {
        Ok(())
    } else {
        Err(TextFault::Uninitialised(module.into()).into())
    }
}
