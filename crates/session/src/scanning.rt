// What a scan does to a program's memory.
ghost use Rattle.std.specs.Prelude.{◌≡◌, ◌<◌, ◌≤◌, Bool, cond, vec_len};
ghost use Rattle.rules.specs.declared.unit.UnitId.TheVariants as unit;
ghost use Rattle.rules.specs.Named.{module_number};
ghost use Rattle.rules.specs.Run.{Passes};
ghost use Rattle.rules.specs.Session.{with_inputs, BlockPart, Scans};
ghost use Rattle.session.specs.States.{program_at, memory_at};

use crate::answer::ScanAnswer;
use crate::fitted::Fitted;
use cabinet::Cabinet;
use cabinet::ports::read_inputs;
use machine::pass::Passed;
use rules::session::Phase;
use rules::unit::Module;

impl Fitted<'_> {
    /// A pass of a block module: where it comes to the module's end the next phase follows, and else the phase stays.
    fn block_pass(&mut self, module: Module, phase: Phase, next: Phase) -> ScanAnswer
        ensures program { self.new.program ≡ self.old.program }
        ensures passes { (whole : Bool) × Passes (program_at self.old) (unit.Module (module_number «module»)) (memory_at self.old) result.steps whole (memory_at self.new) × (result.phase ≡ cond whole next phase) }
        ensures bounded { result.steps ≤ vec_len self.old.program.now.formed.layout.program.lines }
    {
        let Passed { steps, whole } = self.pass(module);
        let phase = if whole { next } else { phase };
        ScanAnswer { steps, phase }
    }

    /// The block part of a scan, by the phase: BLOCK_INIT, BLOCK_DONE or nothing.
    fn block_part(&mut self, phase: Phase) -> ScanAnswer
        ensures program { self.new.program ≡ self.old.program }
        ensures part { BlockPart (program_at self.old) (memory_at self.old) result.steps (memory_at self.new) phase result.phase }
        ensures bounded { result.steps ≤ vec_len self.old.program.now.formed.layout.program.lines }
    {
        match phase {
            Phase::Idle | Phase::Moving => ScanAnswer { steps: 0, phase },
            Phase::Preparing => self.block_pass(Module::BlockInit, Phase::Preparing, Phase::Moving),
            Phase::Closing => self.block_pass(Module::BlockDone, Phase::Closing, Phase::Idle),
        }
    }

    /// Reads the inputs into the data bytes 0 to 7.
    #[tactic(auto, using(crate::proofs::Fits::room))]
    fn take_inputs<C: Cabinet>(&mut self, cabinet: &C)
        ensures program { self.new.program ≡ self.old.program }
        ensures inputs { memory_at self.new ≡ with_inputs (memory_at self.old) (C.Cabinet.meaning.inputs cabinet.now) }
    {
        read_inputs(cabinet, &mut self.memory.bytes);
    }

    /// Reads the inputs and runs INPUT, the block part and MAIN.
    pub(crate) fn scan<C: Cabinet>(&mut self, cabinet: &C, phase: Phase) -> ScanAnswer
        ensures program { self.new.program ≡ self.old.program }
        ensures scans { Scans (program_at self.old) (C.Cabinet.meaning.inputs cabinet.now) (record { memory = memory_at self.old; phase = phase }) result.steps (record { memory = memory_at self.new; phase = result.phase }) }
    {
        self.take_inputs(cabinet);
        let input = self.pass(Module::Input);
        let block = self.block_part(phase);
        let main = self.pass(Module::Main);
        ScanAnswer {
            steps: input.steps + block.steps + main.steps,
            phase: block.phase,
        }
    }
}
