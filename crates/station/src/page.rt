// The certificate as a page for a browser.
use crate::failure::Failure;
use crate::listing::{Instruction, UnitName};
use crate::surveys::{Survey, SurveyedLine, SurveyedText};
use certificate::contents::Certificate;
use std::alloc::{AllocError, Global};
use std::fmt::{Display, Formatter};
use std::io::Write;
use std::{fmt, fs, io};

const BEGINNING: &str = "<!DOCTYPE html>
<html lang=\"en\">
<head>
<meta charset=\"utf-8\">
<title>TECHNOL certificate</title>
<style>
body { font-family: sans-serif; max-width: 60em; margin: 2em auto; padding: 0 1em; color: #111; background: #fff; }
table { border-collapse: collapse; width: 100%; }
th, td { text-align: left; padding: 0.2em 0.7em; border-bottom: 1px solid #bbb; }
.number { text-align: right; font-variant-numeric: tabular-nums; }
.line { font-family: monospace; }
.longest { background: #ffe9a8; }
.verdict { font-size: 1.5em; font-weight: bold; }
</style>
</head>
<body>
<h1>TECHNOL certificate</h1>
<p>Image: ";

const HEADING: &str = "<h2>The text</h2>
<p>Greatest steps are those with which a route of the line's unit comes to the line. A line marked * is on the routes of one longest scan.</p>
<table>
<tr><th></th><th class=\"number\">Line</th><th>Unit</th><th class=\"number\">Text flag</th><th class=\"number\">Depth</th><th class=\"number\">Greatest steps</th><th>Instruction</th></tr>
";

const END: &str = "</table>
</body>
</html>
";

/// A text so that a browser shows it as it is.
#[derive(Clone, Copy)]
struct Escaped<'a>(&'a str);

impl Display for Escaped<'_> {
    fn fmt<W: fmt::Write>(&self, f: &mut Formatter<W>) -> fmt::Result {
        for c in self.0.chars() {
            match c {
                '<' => f.write_str("&lt;")?,
                '&' => f.write_str("&amp;")?,
                other => f.write_char(other)?,
            }
        }
        Ok(())
    }
}

/// The depth and the greatest steps of a line, where a route comes to it.
#[derive(Clone, Copy)]
struct Measures(Option<Survey>);

impl Display for Measures {
    fn fmt<W: fmt::Write>(&self, f: &mut Formatter<W>) -> fmt::Result {
        match self.0 {
            Some(Survey { steps, low, .. }) => write!(
                f,
                "<td class=\"number\">{low}</td><td class=\"number\">{steps}</td>"
            ),
            None => write!(f, "<td class=\"number\">-</td><td class=\"number\">-</td>"),
        }
    }
}

/// A line of the text, by its number, as a row of the table.
#[derive(Clone, Copy)]
struct Row(usize, SurveyedLine);

impl Display for Row {
    fn fmt<W: fmt::Write>(&self, f: &mut Formatter<W>) -> fmt::Result {
        let Row(number, line) = *self;
        let start = match line.survey {
            Some(Survey { longest: true, .. }) => "<tr class=\"longest\"><td>*</td>",
            _ => "<tr><td></td>",
        };
        let unit = UnitName(line.unit);
        let flag = u8::from(line.flag);
        let measures = Measures(line.survey);
        let instruction = Instruction(line.line);
        write!(
            f,
            "{start}<td class=\"number\">{number}</td><td>{unit}</td><td class=\"number\">{flag}</td>{measures}<td class=\"line\">{instruction}</td></tr>"
        )
    }
}

/// A page and the file that it is for.
#[derive(Drop)]
pub(crate) struct Page {
    file: String,
    html: String,
}

impl Page {
    /// The beginning of a page, with the name of the image.
    pub(crate) fn begin(heap: Global, file: String, image: &str) -> Result<Page, AllocError> {
        let image = Escaped(image);
        let html = format!(in heap; "{BEGINNING}{image}</p>\n")?;
        Ok(Page { file, html })
    }

    /// Adds the verdict and the fields of the certificate, with what each promises.
    pub(crate) fn add_fields(&mut self, fields: Certificate) -> Result<(), AllocError> {
        let Certificate { lines, stack, scan } = fields;
        writeln!(self.html, "<p class=\"verdict\">ACCEPTED</p>")?;
        writeln!(self.html, "<table>")?;
        writeln!(
            self.html,
            "<tr><th>LINES</th><td class=\"number\">{lines}</td><td>The program has this many lines.</td></tr>"
        )?;
        writeln!(
            self.html,
            "<tr><th>STACK</th><td class=\"number\">{stack}</td><td>No route of any unit stacks more cells, and some route stacks as many.</td></tr>"
        )?;
        writeln!(
            self.html,
            "<tr><th>SCAN</th><td class=\"number\">{scan}</td><td>No scan, in any session on any cabinet, has more steps, and some choice of a scan's routes has exactly as many.</td></tr>"
        )?;
        writeln!(self.html, "</table>")
    }

    /// Adds the text, line by line, and the end of the page.
    pub(crate) fn add_text(&mut self, text: &SurveyedText<'_>) -> Result<(), AllocError> {
        self.html.push_str(HEADING)?;
        for number in 0..text.len() {
            if let Some(line) = text.line(number) {
                writeln!(self.html, "{}", Row(number, line))?;
            }
        }
        self.html.push_str(END)
    }

    /// Writes the page to its file.
    pub(crate) fn save(self, rt: &HostRuntime) -> Result<(), Failure> {
        let Page { file, html } = self;
        fs::write(rt, file.as_str(), html.as_str()).map_err(|_| Failure::Wrong(
            file,
            "cannot be written",
        ))
    }
}
