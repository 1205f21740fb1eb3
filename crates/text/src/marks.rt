// What is found of each line as the text is gone through: its unit, and the text flag at it.
use rules::unit::NamedUnit;

pub(crate) mod marking;

/// The unit of a line, and the text flag at it.
#[derive(Clone, Copy)]
pub struct Mark {
    pub unit: NamedUnit,
    pub flag: bool,
}
