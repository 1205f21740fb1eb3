// The rules that each line keeps or breaks by itself: a known code and mode, and an operand that serves.
ghost use Rattle.std.specs.Prelude.{Decides};
ghost use Rattle.rules.specs.Op.{decode};
ghost use Rattle.rules.specs.Form.{Reaches, Unknown, IsBadOperand};
ghost use Rattle.image.specs.Held.{meant};
ghost use Rattle.text.specs.Finds.{Finds};

use image::program::Program;
use rules::line::Line;
use rules::op::Op;

// Whether the operand of a line serves its operation; that of a line without one always does.
fn serves(program: &Program, line: Line) -> bool
    ensures { Decides result (Reaches (meant program.now) line (decode line)) }
{
    let Some(op) = line.decode() else {
        return true;
    };
    match op {
        Op::Jl { .. } => true,
        Op::Ldr { bit, .. }
        | Op::Combine { bit, .. }
        | Op::Wr { bit }
        | Op::Fl { bit, .. }
        | Op::Fl1 { bit, .. } => usize::from(bit) < 8 * program.initial.len(),
        Op::Lod { width, place }
        | Op::Sto { width, place }
        | Op::Ad { width, place }
        | Op::Ge { width, place } => usize::from(place) + width.bytes() <= program.initial.len(),
        Op::MechBegin { mechanism } | Op::MechEnd { mechanism } | Op::MechInit { mechanism } => {
            usize::from(mechanism) < program.activation.len()
        },
        Op::CombineCell { .. } | Op::Ca | Op::Ex | Op::ExIf { .. } | Op::Abs { .. } => {
            line.operand == 0
        },
    }
}

// The first line whose code and mode name no operation.
pub(crate) fn first_unknown(program: &Program) -> Option<usize>
    ensures { Finds (Unknown (meant program.now)) result }
{
    program
        .lines
        .iter()
        .position(|line| line.decode().is_none())
}

// The first line whose operand does not serve.
pub(crate) fn first_bad_operand(program: &Program) -> Option<usize>
    ensures { Finds (IsBadOperand (meant program.now)) result }
{
    program
        .lines
        .iter()
        .position(|line| !serves(program, *line))
}
