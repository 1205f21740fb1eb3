// What an image holds, section by section and line by line.
use crate::failure::Failure;
use crate::files::read_bytes;
use crate::listing::{Instruction, UnitName};
use crate::sections::write_sections;
use crate::surveys::{Survey, SurveyedText};
use image::reading::read_image;
use rules::line::Line;
use rules::refusal::Refusal;
use std::alloc::{AllocError, Global};
use std::fmt::{Display, Formatter};
use std::io::{BufWriter, Write};
use std::{fmt, io};
use text::fault::CheckFault;
use text::formed::Formed;
use text::forming::form;
use verdict::place::accept;

/// What is known of a line: the depth, the greatest number of steps with which a route comes there, and a star on a longest scan.
#[derive(Clone, Copy)]
struct Known(Option<Survey>);

impl Display for Known {
    fn fmt<W: fmt::Write>(&self, f: &mut Formatter<W>) -> fmt::Result {
        let Some(
            Survey {
                steps,
                low,
                high,
                longest,
            },
        ) = self.0
        else {
            return write!(f, "    -     -  ");
        };
        if low == high {
            write!(f, "{low:>5}")?;
        } else {
            write!(f, "{low:>2}..{high}")?;
        }
        let star = if longest { '*' } else { ' ' };
        write!(f, " {steps:>5} {star}")
    }
}

/// Writes each line of a formed program: its number, its unit, the text flag at it, what its routes bring, and the line.
fn write_text<W: Write>(out: &mut W, text: &SurveyedText<'_>) -> io::Result<()> {
    writeln!(
        out,
        "text: line, unit, text flag, depth, greatest steps before it, * on a longest scan, instruction"
    )?;
    for number in 0..text.len() {
        if let Some(line) = text.line(number) {
            let unit = UnitName(line.unit);
            let flag = u8::from(line.flag);
            let known = Known(line.survey);
            let instruction = Instruction(line.line);
            writeln!(out, "{number:>6}  {unit}  {flag} {known} {instruction}")?;
        }
    }
    Ok(())
}

/// Writes each line of a text that is not formed: its number, and the line.
fn write_raw_text<W: Write>(out: &mut W, lines: &[Line]) -> io::Result<()> {
    writeln!(out, "text: line, instruction")?;
    for (number, line) in lines.iter().enumerate() {
        let instruction = Instruction(*line);
        writeln!(out, "{number:>6}  {instruction}")?;
    }
    Ok(())
}

/// Prints the sections of an image and its text, and the refusal where it earns one.
pub(crate) fn inspect(rt: &HostRuntime, file: String) -> Result<(), Failure> {
    let heap = rt.alloc();
    let bytes = read_bytes(rt, file)?;
    let image = read_image(bytes.as_slice())?;
    let mut out = BufWriter::new(heap, rt.stdout())?;
    write_sections(&mut out, &image)?;
    let refusal = match form(heap, image.program(heap)?) {
        Ok(formed) => show_formed(heap, &mut out, formed, bytes.as_slice())?,
        Err(CheckFault::Text(fault)) => {
            write_raw_text(&mut out, image.program(heap)?.lines.as_slice())?;
            Some(Refusal::from(fault))
        }
        Err(CheckFault::Memory) => return Err(Failure::Memory(AllocError)),
    };
    out.flush()?;
    match refusal {
        Some(refusal) => Err(Failure::from(refusal)),
        None => Ok(()),
    }
}

/// Writes the text of a formed program with what its routes bring; answers the refusal that its image earns, if it earns one.
fn show_formed<W: Write>(
    heap: Global,
    out: &mut W,
    formed: Formed,
    image: &[u8],
) -> Result<Option<Refusal>, Failure> {
    match accept(heap, image) {
        Ok(program) => {
            // the accepted program has the same text
            drop(formed);
            let mut text = SurveyedText::of(heap, &program.formed)?;
            text.mark_longest(heap, &program)?;
            write_text(out, &text)?;
            Ok(None)
        }
        Err(fault) => {
            write_text(out, &SurveyedText::of(heap, &formed)?)?;
            Ok(fault.refusal())
        }
    }
}
