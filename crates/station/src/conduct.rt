// A session from its files to its last line.
use crate::arguments::{Request, Wiring};
use crate::calls::Calls;
use crate::failure::Failure;
use crate::loading::load;
use crate::printer::Printer;
use crate::reading::read_lines;
use cabinet::Cabinet;
use cabinet::patch::Patch;
use cabinet::stimulus::Stimulus;
use session::conduct::conducting::conduct;
use std::io::{BufWriter, Stdout};
use verdict::place::Place;

/// Prints the session of a mounted program on a cabinet, call by call.
fn print_session<C: Cabinet + Drop>(
    rt: &HostRuntime,
    place: &Place,
    cabinet: C,
    calls: &Calls,
    mut printer: Printer<BufWriter<Stdout>>,
) -> Result<(), Failure> {
    let conducted = conduct(
        place.program(),
        cabinet,
        calls.list.as_slice(),
        calls.halts,
        &mut printer,
        rt.alloc(),
    )
    .map_err(|(_, e)| Failure::from(e))?;
    printer.finish(&conducted.left.memory, conducted.certificate.scan)
}

/// Runs a session: reads its files, all of them before anything is run, and prints each call.
pub(crate) fn run_session(rt: &HostRuntime, request: Request) -> Result<(), Failure> {
    let Request {
        image,
        calls,
        wiring,
        state,
        quiet,
    } = request;
    let calls = read_lines(rt, calls)?;
    let printer = Printer::new(BufWriter::new(rt.alloc(), rt.stdout())?, state, quiet);
    match wiring {
        Wiring::Rows(file) => {
            let rows = read_lines(rt, file)?;
            let place = load(rt, image)?;
            print_session(rt, &place, Stimulus::new(rows), &calls, printer)
        }
        Wiring::Patch => {
            let place = load(rt, image)?;
            print_session(rt, &place, Patch::new(), &calls, printer)
        }
    }
}
