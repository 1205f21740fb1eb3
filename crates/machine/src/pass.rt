// A pass of a module, with the mechanisms that MAIN enters.
ghost use Rattle.std.specs.Prelude.{◌≡◌, ◌≤◌, true, false, vec_len};
ghost use Rattle.rules.specs.declared.unit.UnitId.TheVariants as unit;
ghost use Rattle.rules.specs.Program.{sequential};
ghost use Rattle.rules.specs.Run.{Passes};
ghost use Rattle.rules.specs.Named.{module_number};
ghost use Rattle.theory.specs.Standing.{Fitting};
ghost use Rattle.machine.specs.Views.{program_of, memory_of};

use crate::memory::Memory;
use crate::place::Place;
use crate::run::Run;
use lines::cleared::cleared_registers;
use rules::unit::{Module, NamedUnit};
use verdict::accepted::Accepted;

/// What a pass answers: how many lines it executed, and whether it came to the unit's end.
// kept: the rules say by a truth value whether the end was reached, and each contract above speaks of it; two words would be turned into it there
#[derive(Clone, Copy)]
pub struct Passed {
    pub steps: u32,
    pub whole: bool,
}

/// Runs a pass of a module from its point until it ends. A pass of MAIN goes into the mechanisms that are active, and back.
pub fn pass(program: &Accepted, module: Module, memory: &mut Memory) -> Passed
    requires { Fitting (program_of program.now) (memory_of memory.old) }
    ensures passes { Passes (program_of program.now) (unit.Module (module_number «module»)) (memory_of memory.old) result.steps result.whole (memory_of memory.new) }
    ensures fitting { Fitting (program_of program.now) (memory_of memory.new) }
    ensures bounded { result.steps ≤ vec_len program.now.formed.layout.program.lines }
    ensures whole { sequential (unit.Module (module_number «module»)) ≡ false → result.whole ≡ true }
{
    let mut run = Run {
        program,
        unit: NamedUnit::Module(module),
        registers: cleared_registers(),
        memory,
    };
    let mut place = run.enter();
    let mut steps = 0;
    // kept: the steps are what the pass answers, and no index into anything; an iterator of runs would lend the run to each step
    while let Place::At(line) = place {
        place = run.execute(line);
        steps += 1;
    }
    Passed {
        steps,
        whole: place == Place::Over(true),
    }
}
