// A cabinet whose inputs follow rows by scan number.
ghost use Rattle.std.specs.Prelude.{◌≡◌, ◌≤◌, length, vec_len};
ghost use Rattle.cabinet.specs.Ports.{zeros};
ghost use Rattle.cabinet.specs.Rows.{applied, due};
ghost use Rattle.std.proofs.Common.{rules};

use crate::Cabinet;
use crate::eight::EightBytes;
use crate::fault::PortFault;
use crate::row::Row;

/// The stimulus cabinet: its rows, how many of them have been applied, its scan number, and its bytes.
#[derive(Drop)]
pub struct Stimulus {
    rows: Vec<Row>,
    cursor: usize,
    number: u32,
    inputs: EightBytes,
    terminals: EightBytes,
    ghost within: { cursor ≤ vec_len rows },
}

/// Applies rows in order, up to the first with a larger number than the one given; answers how many those are.
fn apply(rows: &[Row], number: u32, inputs: &mut EightBytes) -> usize
    ensures inputs { inputs.new.bytes ≡ applied number rows.now inputs.old.bytes }
    ensures count { result ≡ due number rows.now }
    ensures within { result ≤ length rows.now }
{
    for (count, row) in rows.iter().enumerate() {
        if row.scan > number {
            return count;
        }
        // a port above 7 changes nothing
        let _ = inputs.write(row.port, row.byte);
    }
    rows.len()
}

impl Stimulus {
    /// A stimulus cabinet with all bytes 0 and the number 0, to which the rows of the number 0 have been applied.
    /// The rows are to stand in rising order of their numbers, which is not tested.
    pub fn new(rows: Vec<Row>) -> Stimulus
        ensures rows { result.rows ≡ rows }
        ensures cursor { result.cursor ≡ due 0 rows.items }
        ensures number { result.number ≡ 0 }
        ensures inputs { result.inputs.bytes ≡ applied 0 rows.items zeros }
        ensures terminals { result.terminals.bytes ≡ zeros }
    {
        let mut inputs = EightBytes::zero();
        let cursor = apply(&rows, 0, &mut inputs);
        Stimulus {
            rows,
            cursor,
            number: 0,
            inputs,
            terminals: EightBytes::zero(),
        }
    }
}

impl Cabinet for Stimulus {
    ghost use Rattle.cabinet.specs.Meanings.{stimulus_meaning};

    ghost meaning = { stimulus_meaning };

    ghost lawful = { Prim.search rules };

    fn input(&self, port: u8) -> Result<u8, PortFault> {
        self.inputs.read(port)
    }

    fn terminal(&self, port: u8) -> Result<u8, PortFault> {
        self.terminals.read(port)
    }

    fn write(&mut self, port: u8, byte: u8) -> Result<(), PortFault> {
        self.terminals.write(port, byte)
    }

    fn advance(&mut self) {
        self.number = self.number.saturating_add(1);
        self.cursor += apply(&self.rows[self.cursor..], self.number, &mut self.inputs);
    }
}
