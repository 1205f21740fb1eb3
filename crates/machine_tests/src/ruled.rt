// Whether a rule exists for a line, so that it can be tried.
ghost use Rattle.std.specs.Prelude.{◌≡◌, ◌<◌, ◌≤◌, true, length};
ghost use Rattle.rules.specs.Op.{decode};
ghost use Rattle.lines.specs.Views.{registers_of, line_effect, HasRule};

use lines::registers::Registers;
use rules::line::Line;
use rules::op::Op;

/// Whether a line is known, its operand stands inside the data or names a mechanism, and the stack has room or a cell.
pub fn has_rule(
    line: Line,
    flagged: bool,
    activation: &[u16],
    registers: &Registers,
    bytes: &[u8],
) -> bool
    ensures rule { result ≡ true → HasRule (line_effect flagged activation.now (decode line) (registers_of registers.now) bytes.now) }
    ensures mechanism { result ≡ true → 22 ≤ line.code → line.operand < length activation.now }
{
    let bit_in = |bit: u16| (bit as usize) / 8 < bytes.len();
    match line.decode() {
        None => false,
        Some(Op::Ldr { bit, .. }) => bit_in(bit) && (!flagged || registers.stack.len() < 8),
        Some(Op::CombineCell { .. }) => registers.stack.len() > 0,
        Some(Op::Combine { bit, .. } | Op::Wr { bit } | Op::Fl { bit, .. } | Op::Fl1 { bit, .. }) =>
            { bit_in(bit) }
        Some(
            Op::Lod { width, place }
            | Op::Sto { width, place }
            | Op::Ad { width, place }
            | Op::Ge { width, place },
        ) => place as usize + width.bytes() <= bytes.len(),
        Some(Op::Ca | Op::Jl { .. } | Op::Ex | Op::ExIf { .. } | Op::Abs { .. }) => true,
        Some(
            Op::MechBegin { mechanism } | Op::MechEnd { mechanism } | Op::MechInit { mechanism },
        ) => {
            let mechanism = mechanism as usize;
            mechanism < activation.len() && bit_in(activation[mechanism])
        }
    }
}
