// Where a mechanism's lines begin and end.
ghost use Rattle.std.specs.Prelude.{◌≡◌, ◌<◌, vec_len};
ghost use Rattle.rules.specs.declared.unit.UnitId.TheVariants.{Mechanism};
ghost use Rattle.rules.specs.Program.{first, end};
ghost use Rattle.machine.specs.Views.{program_of};

use verdict::accepted::Accepted;

// kept: no methods, since an impl cannot stand on a type of another crate, and a trait for these two would be longer
/// A mechanism's first line, the one after its MECH_BEGIN.
#[tactic(auto, using(crate::proofs::Places::begin_inside))]
pub fn mechanism_first(program: &Accepted, mechanism: usize) -> usize
    requires { mechanism < vec_len program.now.formed.layout.program.activation }
    ensures { result ≡ first (program_of program.now) (Mechanism mechanism) }
{
    program.formed.layout.brackets[mechanism].begin + 1
}

/// A mechanism's end, the line after its MECH_END.
#[tactic(auto, using(crate::proofs::Places::end_inside))]
pub fn mechanism_end(program: &Accepted, mechanism: usize) -> usize
    requires { mechanism < vec_len program.now.formed.layout.program.activation }
    ensures { result ≡ end (program_of program.now) (Mechanism mechanism) }
{
    program.formed.layout.brackets[mechanism].end + 1
}
