// The verdict on a formed program.
ghost use Rattle.std.specs.Prelude.{◌≡◌, MatchResult};
ghost use Rattle.text.specs.Verdicts.{Told};

use crate::accepted::Accepted;
use crate::initialised::initialised;
use crate::units::first_bad_line;
use rules::unit::Module;
use std::alloc::Global;
use text::fault::{CheckFault, TextFault};
use text::formed::Formed;

/// The accepted program of a formed one, or the refusal: depths of routes that differ or do not serve, at the first line of the text where
/// they do not, or else a route of INIT or of CLEAR that leaves a mechanism uninitialised.
pub(crate) fn judge(heap: Global, formed: Formed) -> Result<Accepted, CheckFault>
    ensures { MatchResult result (λ a. a.formed ≡ formed) (λ e. Told formed.layout.program e) }
{
    if let Some(line) = first_bad_line(&formed, heap)? {
        return Err(TextFault::BadDepth(line).into());
    }
    initialised(&formed, Module::Init, heap)?;
    initialised(&formed, Module::Clear, heap)?;
    Ok(Accepted { formed })
}
