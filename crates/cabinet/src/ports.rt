// All eight ports at once, over any cabinet.
ghost use Rattle.std.specs.Prelude.{◌≡◌, ◌<◌, ◌≤◌, ◌++◌, length, take, drop, vec_len};
ghost use Rattle.rules.specs.Cabinet.{Sent};

use crate::Cabinet;
use std::array;

/// Reads the eight inputs into the data bytes 0 to 7.
pub fn read_inputs<C: Cabinet>(cabinet: &C, bytes: &mut Vec<u8>)
    requires { 8 ≤ vec_len bytes.old }
    ensures items { bytes.new.items ≡ C.Cabinet.meaning.inputs cabinet.now ++ drop 8 bytes.old.items }
    ensures len { vec_len bytes.new ≡ vec_len bytes.old }
{
    bytes[0..8].copy_from_slice(&inputs(cabinet));
}

/// The eight inputs.
fn inputs<C: Cabinet>(cabinet: &C) -> [u8; 8]
    ensures { result ≡ C.Cabinet.meaning.inputs cabinet.now }
{
    array::from_fn(
        |port|
            requires { port < 8 }
        { cabinet.input(port as u8).unwrap() },
    )
}

/// Makes the eight terminals the data bytes 8 to 15, and changes nothing else.
pub fn send<C: Cabinet>(cabinet: &mut C, bytes: &[u8])
    requires { 16 ≤ length bytes.now }
    ensures { Sent C.Cabinet.meaning cabinet.old (take 8 (drop 8 bytes.now)) cabinet.new }
{
    // kept: the bytes are copied first; written straight from `bytes` they were stored one by one, and scans with a patch cabinet took 1.3 times as long.
    let outputs: [u8; 8] = bytes[8..16].try_into().unwrap();
    for (port, byte) in outputs.iter().enumerate() {
        cabinet.write(port as u8, *byte).unwrap();
    }
}

/// The eight terminals.
pub fn terminals<C: Cabinet>(cabinet: &C) -> [u8; 8]
    ensures { result ≡ C.Cabinet.meaning.terminals cabinet.now }
{
    array::from_fn(
        |port|
            requires { port < 8 }
        { cabinet.terminal(port as u8).unwrap() },
    )
}
