// The station: reads its arguments and does what they ask.

#![tactic(auto)]

mod arguments;
mod calls;
mod certify;
mod conduct;
mod failure;
mod files;
mod inspect;
mod listing;
mod loading;
mod page;
mod printer;
mod reading;
mod refusals;
mod rows;
mod sections;
mod surveys;

use arguments::{Command, command_of};
use failure::Failure;
use std::env;
use std::process::ExitCode;

const HELP: &str = "station certify IMAGE [--html PAGE]
                        the verdict on a program, with its certificate; an accepted
                        one's is also written to the file PAGE, for a browser
station run IMAGE CALLS (--rows ROWS | --patch) [--state] [--quiet]
                        a session: the calls of a file, on a cabinet
station inspect IMAGE   the sections of an image, and its text line by line
station help            this page

CALLS has one call a line: scan, scan COUNT, clear, block, position, and halt at the end.
ROWS has one row a line: scan number, port and byte, in rising order of the scan numbers.
In both, empty lines and what follows ; are passed over.
--rows   the inputs follow the rows of a file
--patch  each terminal is wired to the input of its number
--state  each line also shows the data bytes and the points
--quiet  of the calls, only the last one's line is printed
";

fn run(rt: &HostRuntime) -> Result<(), Failure> {
    let args = env::args(rt)?;
    match command_of(args)? {
        Command::Help => {
            rt.print(HELP)?;
            Ok(())
        }
        Command::Certify { image, page } => certify::certify(rt, image, page),
        Command::Inspect(image) => inspect::inspect(rt, image),
        Command::Run(request) => conduct::run_session(rt, request),
    }
}

fn main(rt: HostRuntime) -> ExitCode {
    match run(&rt) {
        Ok(()) => ExitCode::SUCCESS,
        Err(failure) => {
            failure.tell(&rt);
            ExitCode::FAILURE
        }
    }
}
