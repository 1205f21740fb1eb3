// The lines of a unit.

/// A unit's first line and its end, which is the line after its last. An empty unit has both where its lines would stand.
#[derive(Clone, Copy, Debug, PartialEq, Eq)]
pub struct Span {
    pub first: usize,
    pub end: usize,
}
