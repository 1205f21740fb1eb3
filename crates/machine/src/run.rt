// A run of a pass: the unit that control is in, and where each line leads.
ghost use Rattle.std.specs.Prelude.{◌≡◌, vec_len};
ghost use Rattle.rules.specs.Program.{Real};
ghost use Rattle.rules.specs.Named.{module_number, unit_named};
ghost use Rattle.image.specs.Held.{meant};

use crate::memory::Memory;
use crate::place::Place;
use crate::units::{mechanism_end, mechanism_first};
use lines::cleared::cleared_registers;
use lines::registers::Registers;
use lines::step::step;
use lines::turn::Turn;
use rules::unit::{Module, NamedUnit};
use verdict::accepted::Accepted;

/// All that a run holds at a place: its program, the unit that control is in, the registers and the memory.
#[derive(Drop)]
pub struct Run<'a> {
    pub program: &'a Accepted,
    pub unit: NamedUnit,
    pub registers: Registers,
    pub memory: &'a mut Memory,
    ghost real: { ∥ Real (meant program.now.formed.layout.program) (unit_named unit) ∥₁ },
    ghost points_fit: { vec_len memory.now.points ≡ vec_len program.now.formed.layout.program.activation },
}

impl Run<'_> {
    ghost use Rattle.std.specs.Prelude.{◌<◌};
    ghost use Rattle.rules.specs.Run.{point, arrive_module, main_after, arrive, leave, enter, turned, Step};
    ghost use Rattle.rules.specs.declared.unit.NamedUnit.TheVariants as named_unit;
    ghost use Rattle.lines.specs.Views.{turn_of};
    ghost use Rattle.machine.specs.Views.{Serves};
    ghost use Rattle.machine.specs.Standing.{standing_at, IsReady, Comes, IsSameRun, program_in, unit_in, registers_in, memory_in, config_of};

    // The line at which a pass of the unit begins.
    fn point(&self) -> usize
        ensures { result ≡ point (program_in self.now) (memory_in self.now) (unit_in self.now) }
    {
        match self.unit {
            NamedUnit::Module(Module::BlockInit) => self.memory.init_point,
            NamedUnit::Module(Module::BlockDone) => self.memory.done_point,
            NamedUnit::Module(module) => self.program.formed.layout.start_of(module),
            NamedUnit::Mechanism(k) => self.memory.points[k],
        }
    }

    // Control comes to a line of the module that it is in; its end ends the pass, and gives the module's point back.
    fn arrive_module(&mut self, module: Module, line: usize) -> Place
        requires { self.old.unit ≡ named_unit.Module «module» }
        ensures { Comes self.old result self.new (arrive_module (program_in self.old) (module_number «module») line (registers_in self.old) (memory_in self.old)) }
    {
        if line != self.program.formed.layout.end_of(module) {
            return Place::At(line);
        }
        let first = self.program.formed.layout.start_of(module);
        self.memory.set_point(self.unit, first);
        self.registers = cleared_registers();
        Place::Over(true)
    }

    // MAIN goes on after a mechanism's MECH_END, with RLO and DR 0.
    fn main_after(&mut self, mechanism: usize) -> Place
        requires { mechanism < vec_len self.old.program.now.formed.layout.program.activation }
        ensures { Comes self.old result self.new (main_after (program_in self.old) mechanism (memory_in self.old)) }
    {
        self.unit = NamedUnit::Module(Module::Main);
        self.registers = cleared_registers();
        let line = mechanism_end(self.program, mechanism);
        self.arrive_module(Module::Main, line)
    }

    // Control comes to a line of the unit; a mechanism's end gives its point back and leads to MAIN.
    fn arrive(&mut self, line: usize) -> Place
        ensures { Comes self.old result self.new (arrive (program_in self.old) (unit_in self.old) line (registers_in self.old) (memory_in self.old)) }
    {
        match self.unit {
            NamedUnit::Module(module) => self.arrive_module(module, line),
            NamedUnit::Mechanism(k) => {
                if line != mechanism_end(self.program, k) {
                    return Place::At(line);
                }
                let begin = mechanism_first(self.program, k);
                self.memory.set_point(self.unit, begin);
                self.main_after(k)
            }
        }
    }

    // The pass of the unit ends before the unit's end.
    fn leave(&mut self) -> Place
        ensures { Comes self.old result self.new (leave (program_in self.old) (unit_in self.old) (memory_in self.old)) }
    {
        match self.unit {
            NamedUnit::Module(_) => {
                self.registers = cleared_registers();
                Place::Over(false)
            }
            NamedUnit::Mechanism(k) => self.main_after(k),
        }
    }

    /// The unit is entered at its point, with RLO and DR 0 and the stack empty.
    pub fn enter(&mut self) -> Place
        ensures { Comes self.old result self.new (enter (program_in self.old) (unit_in self.old) (memory_in self.old)) }
    {
        self.registers = cleared_registers();
        let line = self.point();
        self.arrive(line)
    }

    // Control goes on after a line of the unit by the line's turn.
    #[tactic(auto, using(crate::proofs::Points::has_point))]
    fn take_turn(&mut self, line: usize, turn: Turn) -> Place
        requires line { line < vec_len self.old.program.now.formed.layout.program.lines }
        requires turn { Serves (program_in self.old) line turn }
        ensures { Comes self.old result self.new (turned (program_in self.old) (unit_in self.old) line (registers_in self.old) (memory_in self.old) (turn_of turn)) }
    {
        match turn {
            Turn::Follows => self.arrive(line + 1),
            Turn::Goes(target) => self.arrive(usize::from(target)),
            Turn::Stops => {
                self.memory.set_point(self.unit, line + 1);
                self.leave()
            }
            Turn::Waits => self.leave(),
            Turn::Resumes => {
                self.memory.set_point(self.unit, line + 1);
                self.arrive(line + 1)
            }
            Turn::Enters(mechanism) => {
                self.unit = NamedUnit::Mechanism(usize::from(mechanism));
                self.enter()
            }
            Turn::Skips(mechanism) => self.main_after(usize::from(mechanism)),
            Turn::Resets(mechanism) => {
                let mechanism = usize::from(mechanism);
                let first = mechanism_first(self.program, mechanism);
                self.memory
                    .set_point(NamedUnit::Mechanism(mechanism), first);
                self.arrive(line + 1)
            }
        }
    }

    /// Executes the line where the run stands, which is one step of the rules.
    pub fn execute(&mut self, line: usize) -> Place
        requires { IsReady self.old line }
        ensures same { IsSameRun self.old self.new }
        ensures step { Step (program_in self.old) (standing_at (unit_in self.old) line (registers_in self.old) (memory_in self.old)) (config_of result self.new) }
    {
        let formed = &self.program.formed;
        let turn = step(
            formed.layout.program.lines[line],
            formed.layout.marks[line].flag,
            &formed.layout.program.activation,
            &mut self.registers,
            &mut self.memory.bytes,
        );
        self.take_turn(line, turn)
    }
}
