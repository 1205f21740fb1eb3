// The mechanisms in the text: begun once, in MAIN, one after the other, and each ended under its own number.
ghost use Rattle.std.specs.Prelude.{None, Decides, ◌≢◌};
ghost use Rattle.rules.specs.Program.{main_module, module_end, open_at};
ghost use Rattle.rules.specs.Form.{LeftOver, IsBadMechanism};
ghost use Rattle.image.specs.Held.{meant};
ghost use Rattle.text.specs.Finds.{Finds};
ghost use Rattle.text.specs.Mechanisms.{Unpaired, Misses};

use crate::layout::Layout;
use crate::layout::placed::Placed;
use rules::op::Mnemonic;
use rules::unit::{Module, NamedUnit};

impl Layout {
    // Whether a line begins a mechanism outside MAIN, inside another or for the second time, or ends one outside MAIN, unopened or under
    // another number.
    fn is_unpaired(&self, place: usize) -> bool
        ensures { Decides result (Unpaired (meant self.now.program) place) }
    {
        let Some(
            Placed {
                line: pairing,
                unit,
            },
        ) = self.at(place)
        else {
            return false;
        };
        let k = usize::from(pairing.operand);
        if pairing.is(Mnemonic::MechBegin) {
            unit != NamedUnit::Module(Module::Main) || self.brackets[k].begin < place
        } else {
            pairing.is(Mnemonic::MechEnd) && unit != NamedUnit::Mechanism(k)
        }
    }

    // The first line that begins or ends a mechanism against the rule.
    fn first_unpaired(&self) -> Option<usize>
        ensures { Finds (Unpaired (meant self.now.program)) result }
    {
        (0..self.program.lines.len()).find(|place| self.is_unpaired(*place))
    }

    // Whether a mechanism is open at MAIN's end.
    fn is_left_open(&self) -> bool
        ensures { Decides result (open_at (meant self.now.program) (module_end (meant self.now.program) main_module) ≢ None) }
    {
        let first = self.start_of(Module::Main);
        let end = self.end_of(Module::Main);
        if first == end {
            return false;
        }
        let last = self.program.lines[end - 1];
        last.is(Mnemonic::MechBegin)
            || !last.is(Mnemonic::MechEnd) && !self.owns(NamedUnit::Module(Module::Main), end - 1)
    }

    // Whether some mechanism is begun nowhere.
    fn misses_mechanism(&self) -> bool
        ensures { Decides result (Misses (meant self.now.program)) }
    {
        let count = self.program.lines.len();
        self.brackets.iter().any(|bracket| bracket.begin == count)
    }

    // Whether a mechanism is open at MAIN's end, or begun nowhere.
    fn is_left_over(&self) -> bool
        ensures { Decides result (LeftOver (meant self.now.program) (module_end (meant self.now.program) main_module)) }
    {
        self.is_left_open() || self.misses_mechanism()
    }

    // The first place where a mechanism is begun or ended against the rule; one that is left open or begun nowhere is placed at MAIN's end.
    pub(crate) fn first_bad_mechanism(&self) -> Option<usize>
        ensures { Finds (IsBadMechanism (meant self.now.program)) result }
    {
        let unpaired = self.first_unpaired();
        if !self.is_left_over() {
            return unpaired;
        }
        let end = self.end_of(Module::Main);
        Some(unpaired.unwrap_or(end).min(end))
    }
}
