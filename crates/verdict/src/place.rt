// The place for an accepted program.
ghost use Rattle.std.specs.Prelude.{◌≡◌, IfOk, MatchResult};
ghost use Rattle.rules.specs.Program.{null_program};
ghost use Rattle.rules.specs.Load.{Loads};
ghost use Rattle.image.specs.Held.{meant};
ghost use Rattle.verdict.specs.Loads.{RefusedSo};

use crate::accepted::Accepted;
use crate::fault::LoadFault;
use crate::judging::judge;
use crate::null::null_program;
use image::reading::read_image;
use std::alloc::{AllocError, Global};
use text::forming::form;

/// The place for an accepted program: it holds the null program at first, and then what was loaded last.
#[derive(Drop)]
pub struct Place {
    mounted: Accepted,
}

/// The accepted program of an image, or the refusal that the image earns.
pub fn accept(heap: Global, image: &[u8]) -> Result<Accepted, LoadFault>
    ensures { MatchResult result (λ a. Loads image.now (meant a.formed.layout.program)) (λ e. RefusedSo image.now e) }
{
    let sections = read_image(image)?;
    let program = sections.program(heap)?;
    let formed = form(heap, program)?;
    let accepted = judge(heap, formed)?;
    Ok(accepted)
}

impl Place {
    /// A place that holds the null program.
    pub fn new(heap: Global) -> Result<Place, AllocError>
        ensures { IfOk result (λ p. meant p.mounted.formed.layout.program ≡ null_program) }
    {
        let mounted = null_program(heap)?;
        Ok(Place { mounted })
    }

    /// The program that is mounted.
    pub fn program(&self) -> &Accepted
        ensures { result.now ≡ self.now.mounted }
    {
        &self.mounted
    }

    /// Mounts the program of an image if it breaks no rule; every refusal leaves the mounted program in its place.
    pub fn load(&mut self, heap: Global, image: &[u8]) -> Result<(), LoadFault>
        ensures { MatchResult result (λ _. Loads image.now (meant self.new.mounted.formed.layout.program)) (λ e. RefusedSo image.now e × (self.new ≡ self.old)) }
    {
        let accepted = accept(heap, image)?;
        self.mounted = accepted;
        Ok(())
    }
}
