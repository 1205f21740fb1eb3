// A session as a person reads it, call by call.
use crate::failure::Failure;
use machine::memory::Memory;
use rules::session::{Answer, Call};
use session::observer::Observer;
use std::fmt::{Display, Formatter};
use std::io::Write;
use std::{fmt, io};

/// The name of a call in call files, or of the start.
// kept: no plainer, as the texts of another crate's enum, asked for in one place
fn call_name(call: Option<Call>) -> &'static str {
    match call {
        None => "start",
        Some(Call::Scan) => "scan",
        Some(Call::Clear) => "clear",
        Some(Call::BlockStart) => "block",
        Some(Call::PositionReport) => "position",
        Some(Call::Halt) => "halt",
    }
}

/// Bytes in hexadecimal, two digits each.
#[derive(Clone, Copy)]
struct Hex<'a>(&'a [u8]);

impl Display for Hex<'_> {
    fn fmt<W: fmt::Write>(&self, f: &mut Formatter<W>) -> fmt::Result {
        for byte in self.0 {
            write!(f, "{byte:02x}")?;
        }
        Ok(())
    }
}

/// What is printed of a call besides the memory.
#[derive(Clone, Copy)]
struct Report {
    call: Option<Call>,
    answer: Answer,
    terminals: [u8; 8],
}

impl Display for Report {
    /// The call, what it answered, the phase, and the terminals.
    fn fmt<W: fmt::Write>(&self, f: &mut Formatter<W>) -> fmt::Result {
        f.write_str(call_name(self.call))?;
        let phase = match self.answer {
            Answer::Scanned { steps, phase } => {
                write!(f, " steps {steps}")?;
                phase
            }
            Answer::Done { phase } => phase,
            Answer::Refused { rule, phase } => {
                write!(f, " refused {}", u8::from(rule))?;
                phase
            }
        };
        write!(
            f,
            " phase {} terminals {}",
            u8::from(phase),
            Hex(&self.terminals)
        )
    }
}

/// The data bytes, and the points of BLOCK_INIT, BLOCK_DONE and the mechanisms.
#[derive(Clone, Copy)]
struct State<'a>(&'a Memory);

impl Display for State<'_> {
    fn fmt<W: fmt::Write>(&self, f: &mut Formatter<W>) -> fmt::Result {
        let Memory {
            bytes,
            init_point,
            done_point,
            points,
        } = self.0;
        let data = Hex(bytes.as_slice());
        write!(f, " data {data} points {init_point},{done_point}")?;
        for point in points {
            write!(f, ",{point}")?;
        }
        Ok(())
    }
}

/// Which calls get a line: each when it is made, or the last one alone when all are made.
#[derive(Clone, Copy)]
enum Lines {
    Each,
    Last(Option<Report>),
}

/// Prints a session, until a line cannot be written.
#[derive(Drop)]
pub(crate) struct Printer<W: Write + Drop> {
    out: W,
    written: io::Result<()>,
    state: bool,
    lines: Lines,
    longest: u32,
}

impl<W: Write + Drop> Printer<W> {
    /// A printer that has printed nothing. It prints the state too if it is asked for, and of the calls only the last one where it is to be quiet.
    pub(crate) fn new(out: W, state: bool, quiet: bool) -> Printer<W> {
        Printer {
            out,
            written: Ok(()),
            state,
            lines: if quiet {
                Lines::Last(None)
            } else {
                Lines::Each
            },
            longest: 0,
        }
    }

    /// Prints the line of a call.
    fn print(&mut self, report: Report, memory: &Memory) -> io::Result<()> {
        write!(self.out, "{report}")?;
        if self.state {
            write!(self.out, "{}", State(memory))?;
        }
        writeln!(self.out)
    }

    /// Prints what is left to print after the calls, the longest scan beside the certificate's bound, and hands all on to the output.
    pub(crate) fn finish(&mut self, memory: &Memory, bound: u32) -> Result<(), Failure> {
        if self.written.is_err() {
            return Err(Failure::Unwritable);
        }
        if let Lines::Last(Some(report)) = self.lines {
            self.print(report, memory)?;
        }
        let longest = self.longest;
        writeln!(self.out, "longest scan {longest} of SCAN {bound}")?;
        self.out.flush()?;
        Ok(())
    }
}

impl<W: Write + Drop> Observer for Printer<W> {
    fn note(&mut self, call: Option<Call>, answer: Answer, memory: &Memory, terminals: [u8; 8]) {
        let report = Report {
            call,
            answer,
            terminals,
        };
        if let Answer::Scanned { steps, .. } = answer {
            self.longest = self.longest.max(steps);
        }
        match self.lines {
            Lines::Last(_) => self.lines = Lines::Last(Some(report)),
            Lines::Each if self.written.is_ok() => self.written = self.print(report, memory),
            Lines::Each => {}
        }
    }
}
