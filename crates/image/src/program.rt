// The program that an image holds.
ghost use Rattle.std.specs.Prelude.{◌≡◌, vec_len};
ghost use Rattle.rules.specs.Number.{Bytes};
ghost use Rattle.rules.specs.Program.{total};
ghost use Rattle.rules.specs.Image.{data_section, mechanism_section, module_section, line_section};
ghost use Rattle.rules.specs.Form.{InRange, BitsInside};

use rules::line::Line;

/// A program as the reader hands it over: its initial data bytes, the address of each mechanism's activation bit, the number of lines
/// of each module, and the lines. Each count is in its range, the activation bits stand inside the data, and the modules have all the lines.
#[derive(Drop)]
pub struct Program {
    pub initial: Vec<u8>,
    pub activation: Vec<u16>,
    pub lengths: Vec<u16>,
    pub lines: Vec<Line>,
    ghost data_count: { InRange data_section (vec_len initial) },
    ghost mechanism_count: { InRange mechanism_section (vec_len activation) },
    ghost module_count: { InRange module_section (vec_len lengths) },
    ghost line_count: { InRange line_section (vec_len lines) },
    ghost bytes_small: { Bytes initial.items },
    ghost bits_inside: { BitsInside activation.items (vec_len initial) },
    ghost all_lines: { total lengths.items ≡ vec_len lines },
}
