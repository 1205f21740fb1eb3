// What the routes of a program bring to each line.
use certificate::bounds::mechanism_bounds;
use certificate::scan::longest_scan;
use measures::survey::survey;
use rules::line::Line;
use rules::unit::{Module, NamedUnit, UnitId};
use std::alloc::{AllocError, Global};
use text::formed::Formed;
use verdict::accepted::Accepted;
use walk::unit_text::UnitText;
use walk::units::named_text;

/// What is known of a line: the greatest number of steps and the lowest and the highest depth with which a route comes there, and whether
/// it is on the routes of a longest scan.
#[derive(Clone, Copy)]
pub(crate) struct Survey {
    pub(crate) steps: u32,
    pub(crate) low: i32,
    pub(crate) high: i32,
    pub(crate) longest: bool,
}

/// A line of a formed program with its unit, the text flag at it, and what is known of it, which is nothing where no route comes there.
#[derive(Clone, Copy)]
pub(crate) struct SurveyedLine {
    pub(crate) unit: UnitId,
    pub(crate) flag: bool,
    pub(crate) line: Line,
    pub(crate) survey: Option<Survey>,
}

/// A formed program, and what is known of each of its lines.
#[derive(Drop)]
pub(crate) struct SurveyedText<'a> {
    formed: &'a Formed,
    surveys: Vec<Option<Survey>>,
}

impl<'a> SurveyedText<'a> {
    /// Takes in what is known of the lines of one unit.
    fn take_in(
        &mut self,
        heap: Global,
        unit: &UnitText<'_>,
        bounds: &[u32],
    ) -> Result<(), AllocError> {
        let table = survey(unit, bounds, heap)?;
        let own = self.surveys.iter_mut().take(unit.end).skip(unit.first);
        for (place, entry) in own.zip(table.iter()) {
            if let Some((steps, (low, high))) = *entry {
                *place = Some(Survey {
                    steps,
                    low,
                    high,
                    longest: false,
                });
            }
        }
        Ok(())
    }

    /// A formed program with what is known of each line.
    pub(crate) fn of(heap: Global, formed: &'a Formed) -> Result<SurveyedText<'a>, AllocError> {
        let bounds = mechanism_bounds(formed, heap)?;
        let surveys = vec![in heap; None; formed.layout.program.lines.len()]?;
        let mut text = SurveyedText { formed, surveys };
        let modules = Module::ALL.into_iter().map(NamedUnit::Module);
        let mechanisms = (0..formed.layout.program.activation.len()).map(NamedUnit::Mechanism);
        for id in modules.chain(mechanisms) {
            if let Some(unit) = named_text(formed, id) {
                text.take_in(heap, &unit, bounds.as_slice())?;
            }
        }
        Ok(text)
    }

    /// Marks the lines of a route.
    fn mark(&mut self, route: &[usize]) {
        for line in route {
            if let Some(Some(survey)) = self.surveys.get_mut(*line) {
                survey.longest = true;
            }
        }
    }

    /// Marks the routes of one longest scan.
    pub(crate) fn mark_longest(
        &mut self,
        heap: Global,
        program: &Accepted,
    ) -> Result<(), AllocError> {
        let longest = longest_scan(program, heap)?;
        let modules = [&longest.input, &longest.block, &longest.main];
        for route in modules.into_iter().chain(longest.mechanisms.iter()) {
            self.mark(route.as_slice());
        }
        Ok(())
    }

    /// How many lines there are.
    pub(crate) fn len(&self) -> usize {
        self.surveys.len()
    }

    /// The line of a number, with what is known of it, or none where there is no such line.
    pub(crate) fn line(&self, number: usize) -> Option<SurveyedLine> {
        Some(SurveyedLine {
            unit: self.formed.unit_of(number)?,
            flag: self.formed.flag_at(number)?,
            line: self.formed.line(number)?,
            survey: *self.surveys.get(number)?,
        })
    }
}
