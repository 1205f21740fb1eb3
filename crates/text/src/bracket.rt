// Where a mechanism is begun and ended.

/// The MECH_BEGIN and the MECH_END of a mechanism, by their lines.
#[derive(Clone, Copy)]
pub struct Bracket {
    pub begin: usize,
    pub end: usize,
}
