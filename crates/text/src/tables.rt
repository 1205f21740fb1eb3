// The tables of a text: where its modules begin, and where each mechanism is begun and ended.
ghost use Rattle.std.specs.Prelude.{◌≡◌, ℕ, ◌<◌, if◌then◌else◌, ◌&&◌, length, IfOk, vec_len, ◌==◌};
ghost use Rattle.rules.specs.Op.{is};
ghost use Rattle.rules.specs.declared.op.Mnemonic.TheVariants as name;
ghost use Rattle.image.specs.Held.{meant};
ghost use Rattle.text.specs.Tables.{StartsAre, bracket_at, BeginsAre, EndsAre};

use crate::bracket::Bracket;
use image::program::Program;
use rules::line::Line;
use rules::op::Mnemonic;
use std::alloc::{AllocError, Global};

// The first line of each module, and the number of lines behind them.
pub(crate) fn starts(heap: Global, program: &Program) -> Result<Vec<usize>, AllocError>
    ensures { IfOk result (λ v. (vec_len v ≡ 8) × StartsAre (meant program.now) v.items) }
{
    let mut starts = Vec::new(heap);
    let mut sum = 0;
    // kept: scan gives the sum before each module and not the one behind the last, so it would be no plainer
    for length in &program.lengths {
        starts.push(sum)?;
        sum += usize::from(*length);
    }
    starts.push(sum)?;
    Ok(starts)
}

// Takes in a line: the mechanism that it begins or ends is begun or ended at the line's place.
fn take_in(brackets: &mut [Bracket], line: Line, place: usize)
    ensures count { length brackets.new ≡ length brackets.old }
    ensures begins { (k : ℕ) → k < length brackets.old
        → (bracket_at brackets.new k).begin ≡ (if is name.MechBegin line && line.operand == k then place else (bracket_at brackets.old k).begin) }
    ensures ends { (k : ℕ) → k < length brackets.old
        → (bracket_at brackets.new k).end ≡ (if is name.MechEnd line && line.operand == k then place else (bracket_at brackets.old k).end) }
{
    let k = usize::from(line.operand);
    // kept: after `get_mut` of a slice a proof knows its length and no element, so the operand is tested here
    if k < brackets.len() {
        if line.is(Mnemonic::MechBegin) {
            brackets[k].begin = place;
        } else if line.is(Mnemonic::MechEnd) {
            brackets[k].end = place;
        }
    }
}

// The MECH_BEGIN and the MECH_END of each mechanism, or the number of lines where there is none.
pub(crate) fn brackets(heap: Global, program: &Program) -> Result<Vec<Bracket>, AllocError>
    ensures count { IfOk result (λ v. vec_len v ≡ vec_len program.now.activation) }
    ensures begins { IfOk result (λ v. BeginsAre (meant program.now) v.items) }
    ensures ends { IfOk result (λ v. EndsAre (meant program.now) v.items) }
{
    let count = program.lines.len();
    let absent = Bracket {
        begin: count,
        end: count,
    };
    let mut brackets = vec![in heap; absent; program.activation.len()]?;
    for place in (0..count).rev() {
        take_in(&mut brackets, program.lines[place], place);
    }
    Ok(brackets)
}
