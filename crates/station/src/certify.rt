// The verdict on an image.
use crate::failure::Failure;
use crate::loading::load;
use crate::page::Page;
use crate::surveys::SurveyedText;
use certificate::contents::Certificate;
use certificate::issue::certificate;

/// Prints that a program is accepted, with its certificate, and first writes that as a page to a file if one is named; else the refusal is the
/// failure, and there is no page.
pub(crate) fn certify(
    rt: &HostRuntime,
    image: String,
    file: Option<String>,
) -> Result<(), Failure> {
    let heap = rt.alloc();
    let page = file
        .map(|file| Page::begin(heap, file, image.as_str()))
        .transpose()?;
    let place = load(rt, image)?;
    let program = place.program();
    let fields = certificate(program, heap)?;
    if let Some(mut page) = page {
        let mut text = SurveyedText::of(heap, &program.formed)?;
        text.mark_longest(heap, program)?;
        page.add_fields(fields)?;
        page.add_text(&text)?;
        page.save(rt)?;
    }
    let Certificate { lines, stack, scan } = fields;
    println!(rt; "ACCEPTED\nLINES {lines}\nSTACK {stack}\nSCAN {scan}")?;
    Ok(())
}
