// A program whose lines each keep their own rules, with its tables, before the rules that need them are tested.
ghost use Rattle.std.specs.Prelude.{◌≡◌, vec_len};
ghost use Rattle.image.specs.Held.{meant};
ghost use Rattle.text.specs.Tables.{StartsAre, BeginsAre, EndsAre, FlagsAre, UnitsAre};
ghost use Rattle.text.specs.Verdicts.{Keeps};

use crate::bracket::Bracket;
use crate::marks::Mark;
use image::program::Program;

mod exits;
mod jumps;
mod laying;
mod mechanisms;
mod placed;

/// A program that breaks neither of the rules of lines by themselves, with its tables: each module's first line and behind them the number
/// of lines, the first MECH_BEGIN and MECH_END of each mechanism or else the number of lines, and each line's unit and text flag.
#[derive(Drop)]
pub struct Layout {
    pub program: Program,
    pub starts: Vec<usize>,
    pub brackets: Vec<Bracket>,
    pub marks: Vec<Mark>,
    ghost keeps: { Keeps (meant program) 8 },
    ghost starts_count: { vec_len starts ≡ 8 },
    ghost starts_are: { StartsAre (meant program) starts.items },
    ghost brackets_count: { vec_len brackets ≡ vec_len program.activation },
    ghost begins_are: { BeginsAre (meant program) brackets.items },
    ghost ends_are: { EndsAre (meant program) brackets.items },
    ghost marks_count: { vec_len marks ≡ vec_len program.lines },
    ghost flags_are: { FlagsAre (meant program) marks.items },
    ghost units_are: { UnitsAre (meant program) marks.items },
}
