// What lasts from call to call of a started program.

use rules::unit::{Module, NamedUnit};

/// The data bytes, and the points of BLOCK_INIT, of BLOCK_DONE and of the mechanisms.
#[derive(Drop)]
pub struct Memory {
    pub bytes: Vec<u8>,
    pub init_point: usize,
    pub done_point: usize,
    pub points: Vec<usize>,
}

impl Memory {
    ghost use Rattle.std.specs.Prelude.{◌≡◌};
    ghost use Rattle.rules.specs.Run.{with_point};
    ghost use Rattle.rules.specs.Named.{unit_named};
    ghost use Rattle.machine.specs.Views.{memory_of, HasPoint};

    /// Sets the point of a unit; a unit that is not sequential has none to set.
    pub(crate) fn set_point(&mut self, unit: NamedUnit, line: usize)
        requires { HasPoint self.old (unit_named unit) }
        ensures { memory_of self.new ≡ with_point (memory_of self.old) (unit_named unit) line }
    {
        match unit {
            NamedUnit::Module(Module::BlockInit) => self.init_point = line,
            NamedUnit::Module(Module::BlockDone) => self.done_point = line,
            NamedUnit::Module(_) => {}
            NamedUnit::Mechanism(k) => self.points[k] = line,
        }
    }
}
