// The tables of a program, and what they say of a line.
ghost use Rattle.std.specs.Prelude.{◌≡◌, ◌<◌, IfOk, Decides};
ghost use Rattle.rules.specs.Program.{module_first, module_end, Own};
ghost use Rattle.rules.specs.Named.{module_number, unit_named};
ghost use Rattle.image.specs.Held.{meant};
ghost use Rattle.text.specs.Placed.{Stands};
ghost use Rattle.text.specs.Verdicts.{Keeps};

use crate::layout::Layout;
use crate::layout::placed::Placed;
use crate::marks::marking::marks_of;
use crate::tables::{brackets, starts};
use image::program::Program;
use rules::unit::{Module, NamedUnit};
use std::alloc::{AllocError, Global};

impl Layout {
    // Makes the tables of a program whose lines each keep their own rules.
    pub(crate) fn new(heap: Global, program: Program) -> Result<Layout, AllocError>
        requires { Keeps (meant program) 8 }
        ensures { IfOk result (λ v. v.program ≡ program) }
    {
        let starts = starts(heap, &program)?;
        let brackets = brackets(heap, &program)?;
        let marks = marks_of(heap, &program, starts.as_slice())?;
        Ok(Layout {
            program,
            starts,
            brackets,
            marks,
        })
    }

    /// The first line of a module.
    pub fn start_of(&self, m: Module) -> usize
        ensures { result ≡ module_first (meant self.now.program) (module_number m) }
    {
        self.starts[usize::from(m)]
    }

    /// The end of a module, which is the line after its last.
    pub fn end_of(&self, m: Module) -> usize
        ensures { result ≡ module_end (meant self.now.program) (module_number m) }
    {
        self.starts[usize::from(m) + 1]
    }

    // A line with its unit, or none where the text has no such line.
    pub(crate) fn at(&self, place: usize) -> Option<Placed>
        ensures { Stands (meant self.now.program) place result }
    {
        let line = *self.program.lines.get(place)?;
        let mark = self.marks.get(place)?;
        Some(Placed {
            line,
            unit: mark.unit,
        })
    }

    // Whether a line is one of a unit's own.
    pub(crate) fn owns(&self, unit: NamedUnit, place: usize) -> bool
        ensures { Decides result (Own (meant self.now.program) (unit_named unit) place) }
    {
        self.at(place).is_some_and(|x| x.unit == unit)
    }
}
