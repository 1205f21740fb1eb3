// Where control goes after a line.

/// The turn that a line takes.
#[derive(Clone, Copy)]
pub enum Turn {
    // to the line that follows, or to a line named
    Follows,
    Goes(u16),
    // the pass ends, and the point is set to the line that follows, or stays
    Stops,
    Waits,
    // the pass goes on, and the point is set to the line that follows
    Resumes,
    // a mechanism is entered at its point, passed by, or put to its first line
    Enters(u16),
    Skips(u16),
    Resets(u16),
}
