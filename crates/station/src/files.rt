// Files that are read whole.
use crate::failure::Failure;
use std::fs;

/// The bytes of a file.
pub(crate) fn read_bytes(rt: &HostRuntime, file: String) -> Result<Vec<u8>, Failure> {
    fs::read(rt, file.as_str()).map_err(|_| Failure::Wrong(file, "cannot be read"))
}
