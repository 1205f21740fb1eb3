// What the arguments ask for.
use crate::failure::Failure;
use std::env::Args;

const NO_IMAGE: &str = "an image has to be named";

const ONE_WIRING: &str = "`run` takes one of --rows and --patch, once";

/// Where the inputs of a run come from.
#[derive(Drop)]
pub(crate) enum Wiring {
    /// from the rows of a file
    Rows(String),
    /// from the terminals
    Patch,
}

/// A run that is asked for: the image, the calls, where the inputs come from, whether to show the state, and whether to print the last call alone.
#[derive(Drop)]
pub(crate) struct Request {
    pub(crate) image: String,
    pub(crate) calls: String,
    pub(crate) wiring: Wiring,
    pub(crate) state: bool,
    pub(crate) quiet: bool,
}

/// What the station is asked to do.
#[derive(Drop)]
pub(crate) enum Command {
    Help,
    /// an image, and the file for the page if one is asked for
    Certify { image: String, page: Option<String> },
    Inspect(String),
    Run(Request),
}

/// The options of a run, as far as they have been read.
#[derive(Drop)]
struct Options {
    wiring: Option<Wiring>,
    state: bool,
    quiet: bool,
}

impl Options {
    /// Takes over where the inputs come from, which may be said once.
    fn wire(&mut self, wiring: Wiring) -> Result<(), Failure> {
        if self.wiring.is_some() {
            return Err(Failure::Usage(ONE_WIRING));
        }
        self.wiring = Some(wiring);
        Ok(())
    }
}

/// The options that are left of the arguments.
fn options_of(mut args: Args) -> Result<Options, Failure> {
    let mut options = Options {
        wiring: None,
        state: false,
        quiet: false,
    };
    while let Some(word) = args.next() {
        match word.as_str() {
            "--rows" => {
                let file = args
                    .next()
                    .ok_or(Failure::Usage("a file of rows has to follow --rows"))?;
                options.wire(Wiring::Rows(file))?;
            }
            "--patch" => options.wire(Wiring::Patch)?,
            "--state" => options.state = true,
            "--quiet" => options.quiet = true,
            _ => return Err(Failure::Wrong(word, "unknown option")),
        }
    }
    Ok(options)
}

/// The run that the arguments after `run` ask for.
fn request_of(mut args: Args) -> Result<Request, Failure> {
    let (Some(image), Some(calls)) = (args.next(), args.next()) else {
        return Err(Failure::Usage("`run` takes an image and a file of calls"));
    };
    let Options {
        wiring,
        state,
        quiet,
    } = options_of(args)?;
    let wiring = wiring.ok_or(Failure::Usage(ONE_WIRING))?;
    Ok(Request {
        image,
        calls,
        wiring,
        state,
        quiet,
    })
}

/// Refuses an argument that is left.
fn nothing_more(mut args: Args) -> Result<(), Failure> {
    match args.next() {
        None => Ok(()),
        Some(word) => Err(Failure::Wrong(word, "one argument too many")),
    }
}

/// The one file that the arguments name.
fn file_of(mut args: Args) -> Result<String, Failure> {
    let file = args.next().ok_or(Failure::Usage(NO_IMAGE))?;
    nothing_more(args)?;
    Ok(file)
}

/// The certifying that the arguments after `certify` ask for.
fn certifying(mut args: Args) -> Result<Command, Failure> {
    let image = args.next().ok_or(Failure::Usage(NO_IMAGE))?;
    let Some(option) = args.next() else {
        return Ok(Command::Certify { image, page: None });
    };
    if option.as_str() != "--html" {
        return Err(Failure::Wrong(option, "unknown option"));
    }
    let page = args
        .next()
        .ok_or(Failure::Usage("a file for the page has to follow --html"))?;
    nothing_more(args)?;
    Ok(Command::Certify {
        image,
        page: Some(page),
    })
}

/// The command of the arguments, the first of which is the program's own name.
pub(crate) fn command_of(mut args: Args) -> Result<Command, Failure> {
    let verb = args.nth(1).ok_or(Failure::Usage("nothing is asked for"))?;
    match verb.as_str() {
        "certify" => certifying(args),
        "inspect" => Ok(Command::Inspect(file_of(args)?)),
        "run" => Ok(Command::Run(request_of(args)?)),
        "help" => {
            nothing_more(args)?;
            Ok(Command::Help)
        }
        _ => Err(Failure::Wrong(verb, "the station has no such command")),
    }
}
