// Where a pass stands.

/// Inside a pass: at a line of the unit that control is in, or over, with the word whether the unit's end was reached.
// kept: the rules have a place with a truth value at its end; an enum of two words or a Result there would be turned into it in each contract
#[derive(Clone, Copy, PartialEq, Eq)]
pub enum Place {
    At(usize),
    Over(bool),
}
