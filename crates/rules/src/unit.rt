// The modules, and the units of a program's text.
ghost use Rattle.std.specs.Prelude.{◌≡◌};
ghost use Rattle.rules.specs.Named.{module_number, unit_named, IsModuleOf};

use std::fmt;

/// The modules, in the order of the text.
#[derive(Clone, Copy, Debug, PartialEq, Eq)]
pub enum Module {
    Input,
    BlockInit,
    BlockDone,
    Main,
    Init,
    Clear,
    Halt,
}

impl Module {
    /// All modules, in their order.
    pub const ALL: [Module; 7] = [
        Module::Input,
        Module::BlockInit,
        Module::BlockDone,
        Module::Main,
        Module::Init,
        Module::Clear,
        Module::Halt,
    ];
}

impl From<Module> for usize {
    ghost from_gives = { λ m n. n ≡ module_number m };

    fn from(m: Module) -> usize {
        match m {
            Module::Input => 0,
            Module::BlockInit => 1,
            Module::BlockDone => 2,
            Module::Main => 3,
            Module::Init => 4,
            Module::Clear => 5,
            Module::Halt => 6,
        }
    }
}

/// A number that is no module's.
#[derive(Clone, Copy, Debug, PartialEq, Eq)]
pub struct NoModule(pub usize);

impl TryFrom<usize> for Module {
    type Error = NoModule;

    ghost try_from_gives = { IsModuleOf };

    fn try_from(n: usize) -> Result<Module, NoModule> {
        Module::ALL.get(n).copied().ok_or(NoModule(n))
    }
}

impl fmt::Display for Module {
    fn fmt<W: fmt::Write>(&self, f: &mut fmt::Formatter<W>) -> fmt::Result {
        f.pad(match self {
            Module::Input => "INPUT",
            Module::BlockInit => "BLOCK_INIT",
            Module::BlockDone => "BLOCK_DONE",
            Module::Main => "MAIN",
            Module::Init => "INIT",
            Module::Clear => "CLEAR",
            Module::Halt => "HALT",
        })
    }
}

/// A unit: a module by its number, or a mechanism, which is the lines after its MECH_BEGIN up to and with its MECH_END.
#[derive(Clone, Copy, Debug, PartialEq, Eq)]
pub enum UnitId {
    Module(usize),
    Mechanism(usize),
}

/// A unit by name: a module, or a mechanism by its number.
#[derive(Clone, Copy, Debug, PartialEq, Eq)]
pub enum NamedUnit {
    Module(Module),
    Mechanism(usize),
}

impl From<NamedUnit> for UnitId {
    ghost from_gives = { λ unit id. id ≡ unit_named unit };

    fn from(unit: NamedUnit) -> UnitId {
        match unit {
            NamedUnit::Module(m) => UnitId::Module(usize::from(m)),
            NamedUnit::Mechanism(k) => UnitId::Mechanism(k),
        }
    }
}
