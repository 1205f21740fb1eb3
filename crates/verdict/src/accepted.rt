// A program that breaks no rule.
ghost use Rattle.image.specs.Held.{meant};
ghost use Rattle.verdict.specs.Sound.{Unbroken};

use text::formed::Formed;

/// An accepted program: a formed one that breaks no rule of its routes either.
#[derive(Drop)]
pub struct Accepted {
    pub formed: Formed,
    ghost unbroken: { Unbroken (meant formed.layout.program) },
}
