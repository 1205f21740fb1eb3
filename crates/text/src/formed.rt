// A program that breaks no rule of the image, and none of the text up to that of MECH_INIT.
ghost use Rattle.image.specs.Held.{meant};
ghost use Rattle.text.specs.Tables.{Unbroken};

use crate::layout::Layout;

mod views;

/// A formed program, with the tables of what is costly to find again.
#[derive(Drop)]
pub struct Formed {
    pub layout: Layout,
    ghost unbroken: { Unbroken (meant layout.program) },
}
