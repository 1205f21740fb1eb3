// The depths with which routes come to the lines of a unit.
ghost use Rattle.std.specs.Prelude.{◌≡◌, ◌<◌, ◌≤◌, ◌&&◌, ◌||◌, [], IfOk, MatchBool, Decides, ◌==◌};
ghost use Rattle.measures.specs.Meaning.{Surveyed};
ghost use Rattle.rules.specs.declared.op.Mnemonic.TheVariants as name;
ghost use Rattle.rules.specs.Op.{is, is_begin, is_end, is_exit};
ghost use Rattle.rules.specs.Program.{Own};
ghost use Rattle.text.specs.Finds.{Finds};
ghost use Rattle.walk.specs.UnitTexts.{program_of, id_of};
ghost use Rattle.verdict.specs.Depths.{IsBadIn, Misfits};

use measures::survey::survey;
use rules::line::Line;
use rules::op::Mnemonic;
use std::alloc::{AllocError, Global};
use walk::unit_text::UnitText;

/// Whether a line takes a cell from the stack: LA, LO and LX do at mode 2.
fn takes_a_cell(line: Line) -> bool
    ensures { result ≡ (line.mode == 2 && (is name.La line || is name.Lo line || is name.Lx line)) }
{
    line.mode == 2 && (line.is(Mnemonic::La) || line.is(Mnemonic::Lo) || line.is(Mnemonic::Lx))
}

/// Whether a line puts a cell on the stack: LDR does where the text flag is set.
fn puts_a_cell(line: Line, flag: bool) -> bool
    ensures { result ≡ (is name.Ldr line && flag) }
{
    line.is(Mnemonic::Ldr) && flag
}

/// Whether no cell may be stacked at a line: an EX-type line, MECH_BEGIN or MECH_END.
fn wants_no_cell(line: Line) -> bool
    ensures { result ≡ (is_exit line || (is_begin line || is_end line)) }
{
    line.is_exit() || line.is(Mnemonic::MechBegin) || line.is(Mnemonic::MechEnd)
}

/// Whether the depths with which routes come to an own line differ, or do not serve.
fn misfits(unit: &UnitText<'_>, l: usize, depths: (i32, i32)) -> bool
    requires { Own (program_of unit.now) (id_of unit.now) l }
    ensures { Decides result (Misfits (program_of unit.now) (id_of unit.now) l depths.0 depths.1) }
{
    let (low, high) = depths;
    if low != high {
        return true;
    }
    let line = unit.line(l);
    if low == 0 {
        return takes_a_cell(line);
    }
    if wants_no_cell(line) {
        return true;
    }
    if low != 8 {
        return false;
    }
    puts_a_cell(line, unit.formed.layout.marks[l].flag)
}

/// Whether routes come to a line below the unit's end with depths that differ or do not serve.
fn is_bad_line(unit: &UnitText<'_>, table: &[Option<(u32, (i32, i32))>], l: usize) -> bool
    requires surveyed { Surveyed (program_of unit.now) (id_of unit.now) [] table.now }
    requires low { unit.now.first ≤ l }
    requires high { l < unit.now.end }
    ensures { MatchBool result (IsBadIn (program_of unit.now) (id_of unit.now) l) (IsBadIn (program_of unit.now) (id_of unit.now) l → ⊥) }
{
    match table[l - unit.first] {
        Some((_, depths)) => misfits(unit, l, depths),
        None => false,
    }
}

/// Whether routes come to the unit's end with depths that are not 0.
fn is_bad_end(unit: &UnitText<'_>, table: &[Option<(u32, (i32, i32))>]) -> bool
    requires { Surveyed (program_of unit.now) (id_of unit.now) [] table.now }
    ensures { Decides result (IsBadIn (program_of unit.now) (id_of unit.now) unit.now.end) }
{
    match table[unit.end - unit.first] {
        Some((_, (low, high))) => low != 0 || high != 0,
        None => false,
    }
}

/// The first line of a unit, or its end, to which routes come with depths that differ or do not serve.
pub(crate) fn first_bad_depth(
    unit: &UnitText<'_>,
    heap: Global,
) -> Result<Option<usize>, AllocError>
    ensures { IfOk result (λ o. Finds (IsBadIn (program_of unit.now) (id_of unit.now)) o) }
{
    let table = survey(unit, &[], heap)?;
    // kept: tried as `find` over the lines; the proof didn't close, since what the closure tells of a line was not found
    for l in unit.first..unit.end {
        if is_bad_line(unit, &table, l) {
            return Ok(Some(l));
        }
    }
    Ok(is_bad_end(unit, &table).then_some(unit.end))
}
