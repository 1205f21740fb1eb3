// A line of a text with the unit that has it.
use rules::line::Line;
use rules::unit::NamedUnit;

/// A line, and the unit that it is one of.
#[derive(Clone, Copy)]
pub struct Placed {
    pub line: Line,
    pub unit: NamedUnit,
}
