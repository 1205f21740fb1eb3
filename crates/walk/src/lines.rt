// The lines of a unit.
ghost use Rattle.std.specs.Prelude.{◌≡◌, ◌<◌};
ghost use Rattle.rules.specs.Program.{Own, line_at, after};
ghost use Rattle.walk.specs.UnitTexts.{program_of, id_of};

use crate::unit_text::UnitText;
use rules::line::Line;
use rules::op::Mnemonic;

impl UnitText<'_> {
    /// The line of a number that is below the unit's end.
    pub fn line(&self, l: usize) -> Line
        requires { l < self.now.end }
        ensures { result ≡ line_at (program_of self.now) l }
    {
        self.formed.layout.program.lines[l]
    }

    /// The line that follows an own line of the unit: after MECH_BEGIN comes the line after its MECH_END.
    pub fn following(&self, l: usize) -> usize
        requires { Own (program_of self.now) (id_of self.now) l }
        ensures { result ≡ after (program_of self.now) l }
    {
        let line = self.line(l);
        if line.is(Mnemonic::MechBegin) {
            self.formed.layout.brackets[usize::from(line.operand)].end + 1
        } else {
            l + 1
        }
    }
}
