// Row files: a scan number, a port and a byte a line.
use crate::reading::{FromLines, Misread};
use cabinet::row::Row;
use std::alloc::Global;

/// The row of a line, or none where the line is empty.
fn row_of(line: &str) -> Result<Option<Row>, &'static str> {
    let mut words = line.split_whitespace();
    let Some(first) = words.next() else {
        return Ok(None);
    };
    let (Some(second), Some(third), None) = (words.next(), words.next(), words.next()) else {
        return Err("three numbers are expected: scan number, port and byte");
    };
    let scan = first
        .parse()
        .map_err(|_| "the scan number is no number from 0 to 4294967295")?;
    let port = second
        .parse()
        .map_err(|_| "the port is no number from 0 to 255")?;
    let byte = third
        .parse()
        .map_err(|_| "the byte is no number from 0 to 255")?;
    Ok(Some(Row { scan, port, byte }))
}

impl FromLines for Vec<Row> {
    /// No rows.
    fn empty(heap: Global) -> Vec<Row> {
        Vec::new(heap)
    }

    /// Adds the row of a line; an empty line is passed over.
    fn take(&mut self, line: &str) -> Result<(), Misread> {
        if let Some(row) = row_of(line)? {
            self.push(row)?;
        }
        Ok(())
    }
}
