// From a program as the reader hands it over to a formed one.
ghost use Rattle.std.specs.Prelude.{◌≡◌, Some, None, MatchResult};
ghost use Rattle.image.specs.Held.{meant};
ghost use Rattle.text.specs.Verdicts.{Keeps, RefusedBy, Told};

use crate::fault::{CheckFault, TextFault};
use crate::formed::Formed;
use crate::layout::Layout;
use crate::lines::{first_bad_operand, first_unknown};
use image::program::Program;
use std::alloc::Global;

// Refuses what was found, if anything was.
fn refuse(found: Option<TextFault>) -> Result<(), TextFault>
    ensures { MatchResult result (λ _. found ≡ None) (λ e. found ≡ Some e) }
{
    found.map_or(Ok(()), Err)
}

// Tests the rules that each line keeps by itself.
fn check_lines(program: &Program) -> Result<(), TextFault>
    ensures { MatchResult result (λ _. Keeps (meant program.now) 8) (λ e. RefusedBy (meant program.now) e) }
{
    refuse(first_unknown(program).map(TextFault::UnknownLine))?;
    refuse(first_bad_operand(program).map(TextFault::BadOperand))
}

// Tests the rules that need the tables.
fn check_layout(layout: &Layout) -> Result<(), TextFault>
    ensures { MatchResult result (λ _. Keeps (meant layout.now.program) 12) (λ e. RefusedBy (meant layout.now.program) e) }
{
    refuse(layout.first_bad_mechanism().map(TextFault::BadMechanism))?;
    refuse(layout.first_bad_jump().map(TextFault::BadJump))?;
    refuse(layout.first_bad_exit().map(TextFault::BadExit))?;
    refuse(layout.first_bad_init().map(TextFault::BadInit))
}

/// The formed program of a program, or the refusal: the lowest rule of the text up to that of MECH_INIT that is broken, and the first place
/// where it is.
pub fn form(heap: Global, program: Program) -> Result<Formed, CheckFault>
    ensures { MatchResult result (λ f. f.layout.program ≡ program) (λ e. Told program e) }
{
    check_lines(&program)?;
    let layout = Layout::new(heap, program)?;
    check_layout(&layout)?;
    Ok(Formed { layout })
}
