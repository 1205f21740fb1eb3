// How many cells are stacked.
ghost use Rattle.std.specs.Prelude.{◌≡◌, ◌&&◌, ◌||◌, pos, ◌==◌};
ghost use Rattle.rules.specs.declared.op.Mnemonic.TheVariants as name;
ghost use Rattle.rules.specs.Op.{is};
ghost use Rattle.text.specs.Marks.{mark_at};
ghost use Rattle.measures.specs.Lawful.{depth_laws};
ghost use Rattle.measures.specs.Models.{change_of, depths_after, wider};

use rules::line::Line;
use rules::op::Mnemonic;
use text::marks::Mark;
use walk::measure::Measure;

/// The lowest and the highest depth of the stack, with the marks of the lines, which tell the text flags.
#[derive(Clone, Copy)]
pub struct Depth<'a> {
    pub marks: &'a [Mark],
}

impl Depth<'_> {
    // The text flag at a line; a line past the last has none.
    fn flag(&self, at: usize) -> bool
        ensures { result ≡ (mark_at self.now.marks.now at).flag }
    {
        self.marks.get(at).is_some_and(|mark| mark.flag)
    }

    // What a line adds to the depth.
    fn change(&self, at: usize, line: Line) -> i32
        ensures { result ≡ change_of self.now.marks.now at line }
    {
        if line.is(Mnemonic::Ldr) && self.flag(at) {
            1
        } else if pops(line) {
            -1
        } else {
            0
        }
    }
}

// Whether a line takes a cell: LA, LO and LX do at mode 2.
fn pops(line: Line) -> bool
    ensures { result ≡ (line.mode == 2 && (is name.La line || is name.Lo line || is name.Lx line)) }
{
    line.mode == 2 && (line.is(Mnemonic::La) || line.is(Mnemonic::Lo) || line.is(Mnemonic::Lx))
}

impl<'a> Measure for Depth<'a> {
    type Value = (i32, i32);

    ghost begins = { (pos 0, pos 0) };

    ghost effect = { λ m. depths_after m.marks.now };

    ghost joined = { wider };

    ghost laws = { λ m. depth_laws m.marks.now };

    fn start(&self) -> (i32, i32) {
        (0, 0)
    }

    fn step(&self, at: usize, line: Line, v: (i32, i32)) -> (i32, i32) {
        let d = self.change(at, line);
        (v.0.saturating_add(d), v.1.saturating_add(d))
    }

    fn join(&self, a: (i32, i32), b: (i32, i32)) -> (i32, i32) {
        (a.0.min(b.0), a.1.max(b.1))
    }
}
