// The marks of a text, module by module.
ghost use Rattle.std.specs.Prelude.{◌≡◌, ◌<◌, [], ◌∷◌, length, IfOk, vec_len, OnOk};
ghost use Rattle.rules.specs.Program.{open_after, clears_flag, flag_after, main_or, module_first, module_end};
ghost use Rattle.rules.specs.Named.{module_number, unit_named};
ghost use Rattle.image.specs.Held.{meant};
ghost use Rattle.text.specs.Marks.{Marked};
ghost use Rattle.text.specs.Tables.{StartsAre};

use crate::marks::Mark;
use image::program::Program;
use rules::line::Line;
use rules::op::Mnemonic;
use rules::unit::{Module, NamedUnit};
use std::alloc::{AllocError, Global};

// The mechanism that is open after a line.
fn open_after(opened: Option<usize>, line: Line) -> Option<usize>
    ensures { result ≡ open_after opened (line ∷ []) }
{
    if line.is(Mnemonic::MechBegin) {
        Some(usize::from(line.operand))
    } else if line.is(Mnemonic::MechEnd) {
        None
    } else {
        opened
    }
}

// Whether a line clears the text flag.
fn clears_flag(line: Line) -> bool
    ensures { result ≡ clears_flag line }
{
    line.is(Mnemonic::MechBegin)
        || line.is(Mnemonic::MechEnd)
        || line.is_jump()
        || line.is_exit()
        || line.is(Mnemonic::Wr)
        || line.is(Mnemonic::Fl1)
}

// The text flag after a line.
fn flag_after(flag: bool, line: Line) -> bool
    ensures { result ≡ flag_after flag (line ∷ []) }
{
    !clears_flag(line) && (line.is(Mnemonic::Ldr) || flag)
}

// The mechanism that is open, or else MAIN.
fn main_or(opened: Option<usize>) -> NamedUnit
    ensures { unit_named result ≡ main_or opened }
{
    opened.map_or(NamedUnit::Module(Module::Main), NamedUnit::Mechanism)
}

// The marks of all lines, from the first line of each module.
pub(crate) fn marks_of(
    heap: Global,
    program: &Program,
    starts: &[usize],
) -> Result<Vec<Mark>, AllocError>
    requires count { length starts.now ≡ 8 }
    requires are { StartsAre (meant program.now) starts.now }
    ensures { IfOk result (λ m. Marked (meant program.now) m.items (vec_len program.now.lines)) }
{
    let mut marks = Vec::with_capacity(heap, program.lines.len())?;
    for module in &Module::ALL {
        let n = usize::from(*module);
        mark_module(&mut marks, program, *module, starts[n], starts[n + 1])?;
    }
    Ok(marks)
}

// Goes through the lines of a module, which finds the text flag clear and no mechanism open.
fn mark_module(
    marks: &mut Vec<Mark>,
    program: &Program,
    module: Module,
    first: usize,
    end: usize,
) -> Result<(), AllocError>
    requires first { first ≡ module_first (meant program.now) (module_number «module») }
    requires end { end ≡ module_end (meant program.now) (module_number «module») }
    requires marked { Marked (meant program.now) marks.old.items first }
    ensures { OnOk result (Marked (meant program.now) marks.new.items end) }
{
    let mut opened = None;
    let mut flag = false;
    for line in &program.lines[first..end] {
        let unit = if module == Module::Main {
            main_or(opened)
        } else {
            NamedUnit::Module(module)
        };
        marks.push(Mark { unit, flag })?;
        opened = open_after(opened, *line);
        flag = flag_after(flag, *line);
    }
    Ok(())
}
