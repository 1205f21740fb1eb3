// What is asked of a formed program: the lines of a unit, and the unit, the text flag and the line of a number.
ghost use Rattle.std.specs.Prelude.{◌≡◌};
ghost use Rattle.rules.specs.Program.{line_at, unit_of, flag_at};
ghost use Rattle.rules.specs.declared.unit.UnitId.TheVariants as unit;
ghost use Rattle.image.specs.Held.{meant};
ghost use Rattle.text.specs.Views.{at_line, Spans};

use crate::formed::Formed;
use crate::span::Span;
use rules::line::Line;
use rules::unit::UnitId;

impl Formed {
    /// The first line and the end of the module of a number, or none where no module has it.
    pub fn module_span(&self, number: usize) -> Option<Span>
        ensures { Spans (meant self.now.layout.program) (unit.Module number) result }
    {
        let first = *self.layout.starts.get(number)?;
        let end = *self.layout.starts.get(number + 1)?;
        Some(Span { first, end })
    }

    // The lines of a mechanism.
    fn mechanism_span(&self, k: usize) -> Option<Span>
        ensures { Spans (meant self.now.layout.program) (unit.Mechanism k) result }
    {
        let bracket = self.layout.brackets.get(k)?;
        Some(Span {
            first: bracket.begin + 1,
            end: bracket.end + 1,
        })
    }

    /// The first line and the end of a unit, or none where the program has no such unit.
    pub fn span(&self, unit: UnitId) -> Option<Span>
        ensures { Spans (meant self.now.layout.program) unit result }
    {
        match unit {
            UnitId::Module(number) => self.module_span(number),
            UnitId::Mechanism(k) => self.mechanism_span(k),
        }
    }

    /// The unit of a line, or none where the text has no such line.
    pub fn unit_of(&self, line: usize) -> Option<UnitId>
        ensures { result ≡ at_line (meant self.now.layout.program) line (unit_of (meant self.now.layout.program) line) }
    {
        self.layout.marks.get(line).map(|mark| mark.unit.into())
    }

    /// The text flag at a line, or none where the text has no such line.
    pub fn flag_at(&self, line: usize) -> Option<bool>
        ensures { result ≡ at_line (meant self.now.layout.program) line (flag_at (meant self.now.layout.program) line) }
    {
        self.layout.marks.get(line).map(|mark| mark.flag)
    }

    /// A line by its number, or none where the text has no such line.
    pub fn line(&self, line: usize) -> Option<Line>
        ensures { result ≡ at_line (meant self.now.layout.program) line (line_at (meant self.now.layout.program) line) }
    {
        self.layout.program.lines.get(line).copied()
    }
}
