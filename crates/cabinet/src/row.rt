// The rows of a stimulus cabinet.
ghost use Rattle.std.specs.Prelude.{◌<◌};

/// A row: from this scan number on, the input of this port is this byte.
#[derive(Clone, Copy)]
pub struct Row {
    pub scan: u32,
    pub port: u8,
    pub byte: u8,
    ghost small: { byte < 256 },
}
