// The sections of an image as a person reads them.
use image::sections::{Image, Part};
use rules::unit::Module;
use std::io;
use std::io::Write;

/// Writes bytes in hexadecimal, 16 a row, each row after the place of its first byte.
fn write_bytes<W: Write>(out: &mut W, bytes: &[u8]) -> io::Result<()> {
    for (row, bytes) in bytes.chunks(16).enumerate() {
        let place = row * 16;
        write!(out, "{place:>6} ")?;
        for byte in bytes {
            write!(out, " {byte:02x}")?;
        }
        writeln!(out)?;
    }
    Ok(())
}

/// Writes the activation bit of each mechanism as place and bit.
fn write_mechanisms<W: Write>(out: &mut W, part: Part<'_>) -> io::Result<()> {
    let (records, _) = part.bytes.as_chunks();
    for (mechanism, record) in records.iter().enumerate() {
        let address = u16::from_le_bytes(*record);
        let place = address / 8;
        let bit = address % 8;
        writeln!(out, "{mechanism:>6}  activation {place}.{bit}")?;
    }
    Ok(())
}

/// Writes the name, the number of lines and the first line of each module.
fn write_modules<W: Write>(out: &mut W, part: Part<'_>, starts: &[usize]) -> io::Result<()> {
    let (records, _) = part.bytes.as_chunks();
    for ((module, record), first) in Module::ALL.iter().zip(records).zip(starts) {
        let number = usize::from(*module);
        let lines = u16::from_le_bytes(*record);
        writeln!(out, "{number:>6}  {module:<10} lines {lines} first {first}")?;
    }
    Ok(())
}

/// Writes the four sections: the offset of each one's first record, how many records it has, and what they hold.
pub(crate) fn write_sections<W: Write>(out: &mut W, image: &Image<'_>) -> io::Result<()> {
    let data = image.data.part();
    let count = data.bytes.len();
    writeln!(out, "data at {} bytes {count}", data.offset)?;
    write_bytes(out, data.bytes)?;
    let mechanisms = image.mechanisms.part();
    let count = mechanisms.bytes.len() / 2;
    writeln!(out, "mechanisms at {} count {count}", mechanisms.offset)?;
    write_mechanisms(out, mechanisms)?;
    let modules = image.modules.part();
    let count = modules.bytes.len() / 2;
    writeln!(out, "modules at {} count {count}", modules.offset)?;
    write_modules(out, modules, &image.starts)?;
    let lines = image.lines.part();
    let count = lines.bytes.len() / 4;
    writeln!(out, "lines at {} count {count}", lines.offset)
}
