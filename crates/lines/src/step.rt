// One line executed.
ghost use Rattle.std.specs.Prelude.{◌≡◌, ◌<◌, ◌≤◌, length};
ghost use Rattle.rules.specs.declared.op.Logic.TheVariants.{And, Or, Xor};
ghost use Rattle.rules.specs.Op.{decode};
ghost use Rattle.lines.specs.Views.{registers_of, done, line_effect, HasRule};

use crate::registers::Registers;
use crate::turn::Turn;
use rules::line::Line;
use rules::op::{Logic, Width};

// The way to join that a code of LA, LO or LX names.
// kept: by the code, so that the three lines are one target of the jump; with three, logic lines took 1.5 times as long.
fn logic_of(code: u8) -> Logic
    ensures and { code ≡ 2 → result ≡ And }
    ensures or { code ≡ 3 → result ≡ Or }
    ensures xor { code ≡ 4 → result ≡ Xor }
{
    match code {
        2 => Logic::And,
        3 => Logic::Or,
        _ => Logic::Xor,
    }
}

// kept: a rule of the project; one step is a match on the code, with ranges and guards on mode and RLO
/// Executes a line for which a rule exists, and says where control goes then.
pub fn step(
    line: Line,
    flagged: bool,
    activation: &[u16],
    registers: &mut Registers,
    bytes: &mut [u8],
) -> Turn
    requires rule { HasRule (line_effect flagged activation.now (decode line) (registers_of registers.old) bytes.old) }
    requires mechanism { 22 ≤ line.code → line.operand < length activation.now }
    ensures { line_effect flagged activation.now (decode line) (registers_of registers.old) bytes.old ≡ done registers.new bytes.new result }
{
    let Line {
        code,
        mode,
        operand,
    } = line;
    match code {
        1 => registers.load(bytes, flagged, mode == 1, operand),
        2..=4 if mode == 2 => registers.combine_cell(bytes, logic_of(code)),
        2..=4 => registers.combine(bytes, logic_of(code), mode == 1, operand),
        5 => registers.rlo = !registers.rlo,
        6 => registers.write(bytes, registers.rlo, operand),
        7 => registers.write(bytes, mode == 1, operand),
        8 if registers.rlo => registers.write(bytes, mode == 1, operand),
        8 => {}
        9 if !registers.rlo => return Turn::Goes(operand),
        10 if registers.rlo => return Turn::Goes(operand),
        9..=10 => {}
        11 => return Turn::Stops,
        12 if !registers.rlo => return Turn::Waits,
        13 if registers.rlo => return Turn::Waits,
        12..=13 => return Turn::Resumes,
        16 if mode == 1 => registers.fetch(bytes, Width::One, operand),
        16 if mode == 2 => registers.fetch(bytes, Width::Two, operand),
        16 => registers.fetch(bytes, Width::Four, operand),
        17 if mode == 1 => registers.store(bytes, Width::One, operand),
        17 if mode == 2 => registers.store(bytes, Width::Two, operand),
        17 => registers.store(bytes, Width::Four, operand),
        19 if mode == 1 => registers.add_number(bytes, Width::One, operand),
        19 if mode == 2 => registers.add_number(bytes, Width::Two, operand),
        19 => registers.add_number(bytes, Width::Four, operand),
        20 if mode == 1 => registers.make_absolute(bytes, Width::One),
        20 if mode == 2 => registers.make_absolute(bytes, Width::Two),
        20 => registers.make_absolute(bytes, Width::Four),
        21 if mode == 1 => registers.compare(bytes, Width::One, operand),
        21 if mode == 2 => registers.compare(bytes, Width::Two, operand),
        21 => registers.compare(bytes, Width::Four, operand),
        22 => return registers.begin(bytes, activation, operand),
        23 => registers.deactivate(bytes, activation, operand),
        24 => {
            registers.deactivate(bytes, activation, operand);
            return Turn::Resets(operand);
        }
        _ => unreachable(),
    }
    Turn::Follows
}
