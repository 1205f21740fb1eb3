// A program, and the memory that it works on.
ghost use Rattle.std.specs.Prelude.{◌≡◌, ◌<◌, ◌≤◌, true, false, vec_len, IfOk};
ghost use Rattle.rules.specs.declared.unit.UnitId.TheVariants as unit;
ghost use Rattle.rules.specs.Named.{module_number};
ghost use Rattle.rules.specs.Cabinet.{Sent};
ghost use Rattle.rules.specs.Program.{sequential};
ghost use Rattle.rules.specs.Run.{Passes};
ghost use Rattle.rules.specs.Session.{fresh, outputs, zav_fce, block_points_back, after_report};
ghost use Rattle.machine.specs.Views.{program_of, memory_of};
ghost use Rattle.session.specs.Points.{PointsStand};

use cabinet::Cabinet;
use cabinet::ports::send;
use lines::bits::bit_at;
use machine::fresh::fresh;
use machine::memory::Memory;
use machine::pass::{Passed, pass};
use rules::session::Phase;
use rules::unit::Module;
use std::alloc::{AllocError, Global};
use verdict::accepted::Accepted;

/// A program, and a memory that fits it: as many bytes and points as it has, and each point where a route begins.
#[derive(Drop)]
pub(crate) struct Fitted<'p> {
    program: &'p Accepted,
    pub(crate) memory: Memory,
    ghost bytes_fit: { vec_len memory.bytes ≡ vec_len program.now.formed.layout.program.initial },
    ghost points_fit: { vec_len memory.points ≡ vec_len program.now.formed.layout.program.activation },
    ghost pointed: { PointsStand (program_of program.now) (memory_of memory) },
}

impl<'p> Fitted<'p> {
    ghost use Rattle.session.specs.States.{program_at, memory_at};

    /// A program with the memory that a start sets.
    pub(crate) fn fresh(program: &'p Accepted, heap: Global) -> Result<Fitted<'p>, AllocError>
        ensures { IfOk result (λ f. (program_at f ≡ program_of program.now) × (memory_at f ≡ fresh (program_of program.now))) }
    {
        let memory = fresh(program, heap)?;
        Ok(Fitted { program, memory })
    }

    /// Runs a pass of a module from its point until it ends.
    #[tactic(auto, using(crate::proofs::Fits::fits, crate::proofs::Fits::kept))]
    pub(crate) fn pass(&mut self, module: Module) -> Passed
        ensures program { self.new.program ≡ self.old.program }
        ensures passes { Passes (program_at self.old) (unit.Module (module_number «module»)) (memory_at self.old) result.steps result.whole (memory_at self.new) }
        ensures bounded { result.steps ≤ vec_len self.old.program.now.formed.layout.program.lines }
        ensures whole { sequential (unit.Module (module_number «module»)) ≡ false → result.whole ≡ true }
    {
        pass(self.program, module, &mut self.memory)
    }

    /// Puts the points of the block modules to their first lines.
    pub(crate) fn return_block_points(&mut self)
        ensures program { self.new.program ≡ self.old.program }
        ensures points { memory_at self.new ≡ block_points_back (program_at self.old) (memory_at self.old) }
    {
        self.memory.init_point = self.program.formed.layout.start_of(Module::BlockInit);
        self.memory.done_point = self.program.formed.layout.start_of(Module::BlockDone);
    }

    /// The phase that a position report sets, by ZAV_FCE, which is bit 128.
    #[tactic(auto, using(crate::proofs::Fits::room))]
    pub(crate) fn phase_after_report(&self) -> Phase
        ensures { result ≡ after_report (zav_fce (memory_at self.now)) }
    {
        if bit_at(&self.memory.bytes, 128) {
            Phase::Closing
        } else {
            Phase::Idle
        }
    }

    /// Makes the terminals the outputs, and changes nothing else.
    #[tactic(auto, using(crate::proofs::Fits::room))]
    pub(crate) fn send_outputs<C: Cabinet>(&self, cabinet: &mut C)
        ensures { Sent C.Cabinet.meaning cabinet.old (outputs (memory_at self.now)) cabinet.new }
    {
        send(cabinet, &self.memory.bytes);
    }
}
