// The stack of bits in the registers.
ghost use Rattle.std.specs.Prelude.{◌≤◌};

/// A stack of at most eight bits: the first `depth` cells, the newest last. A clause speaks of the list of its bits, the newest first.
#[derive(Clone, Copy)]
pub struct Stack {
    cells: [bool; 8],
    depth: usize,
    ghost at_most_eight: { depth ≤ 8 },
}

impl Stack {
    ghost use Rattle.std.specs.Prelude.{◌≡◌, ◌<◌, [], ◌∷◌, length};
    ghost use Rattle.lines.specs.Views.{bits_of};

    /// A stack with no bit.
    pub fn new() -> Stack
        ensures { bits_of result ≡ [] }
    {
        Stack {
            cells: [false; 8],
            depth: 0,
        }
    }

    /// How many bits are on the stack.
    pub fn len(&self) -> usize
        ensures { result ≡ length (bits_of self.now) }
    {
        self.depth
    }

    /// Puts a bit onto the stack.
    #[tactic(auto, using(crate::proofs::Cells::pushes))]
    pub fn push(&mut self, bit: bool)
        requires { length (bits_of self.old) < 8 }
        ensures { bits_of self.new ≡ bit ∷ bits_of self.old }
    {
        self.cells[self.depth] = bit;
        self.depth += 1;
    }

    /// Takes the newest bit off the stack.
    #[tactic(auto, using(crate::proofs::Cells::pops))]
    pub fn pop(&mut self) -> bool
        requires { 0 < length (bits_of self.old) }
        ensures { bits_of self.old ≡ result ∷ bits_of self.new }
    {
        self.depth -= 1;
        self.cells[self.depth]
    }
}
