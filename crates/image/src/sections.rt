// The four sections of an image, as parts of it.
ghost use Rattle.std.specs.Prelude.{◌≡◌, false};
ghost use Rattle.std.specs.Range.{range_inclusive_start, range_inclusive_end, range_inclusive_exhausted};
ghost use Rattle.rules.specs.Image.{record_size, least_count, most_count, program_of, ImageSound};
ghost use Rattle.image.specs.declared.sections.Kind.TheVariants as kind;
ghost use Rattle.image.specs.Parts.{section_of, part_of, StartsAre};
ghost use Rattle.image.specs.Whole.{IsSection};

use std::ops::RangeInclusive;

/// The kinds of sections, in their order.
#[derive(Clone, Copy)]
pub enum Kind {
    Data,
    Mechanisms,
    Modules,
    Lines,
}

impl Kind {
    // How many bytes a record has.
    pub(crate) fn record_size(self) -> usize
        ensures { result ≡ record_size (section_of self) }
    {
        match self {
            Kind::Data => 1,
            Kind::Mechanisms | Kind::Modules => 2,
            Kind::Lines => 4,
        }
    }

    // The counts that a section of this kind may have.
    pub(crate) fn counts(self) -> RangeInclusive<usize>
        ensures least { range_inclusive_start result ≡ least_count (section_of self) }
        ensures most { range_inclusive_end result ≡ most_count (section_of self) }
        ensures fresh { range_inclusive_exhausted result ≡ false }
    {
        match self {
            Kind::Data => 17..=1024,
            Kind::Mechanisms => 0..=32,
            Kind::Modules => 7..=7,
            Kind::Lines => 0..=2048,
        }
    }
}

/// A part of an image, and the offset at which it begins.
#[derive(Clone, Copy)]
pub struct Part<'a> {
    pub offset: usize,
    pub bytes: &'a [u8],
}

// kept: a rule of the project; each section is a case that borrows its part of the image, with its offset.
/// A section of an image: the part that its records fill, behind its count.
#[derive(Clone, Copy)]
pub enum Section<'a> {
    Data(Part<'a>),
    Mechanisms(Part<'a>),
    Modules(Part<'a>),
    Lines(Part<'a>),
}

impl<'a> Section<'a> {
    /// The part of the image that this section is.
    pub fn part(self) -> Part<'a>
        ensures { result ≡ part_of self.entry }
    {
        match self {
            Section::Data(part)
            | Section::Mechanisms(part)
            | Section::Modules(part)
            | Section::Lines(part) => part,
        }
    }
}

/// An image in its sections: its bytes, the four sections, and the first line of each module. The image breaks no rule of the image.
#[derive(Clone, Copy)]
pub struct Image<'a> {
    pub bytes: &'a [u8],
    pub data: Section<'a>,
    pub mechanisms: Section<'a>,
    pub modules: Section<'a>,
    pub lines: Section<'a>,
    pub starts: [usize; 7],
    ghost sound: { ImageSound bytes.now },
    ghost data_is: { IsSection bytes.now kind.Data «data» },
    ghost mechanisms_are: { IsSection bytes.now kind.Mechanisms mechanisms },
    ghost modules_are: { IsSection bytes.now kind.Modules modules },
    ghost lines_are: { IsSection bytes.now kind.Lines lines },
    ghost starts_are: { StartsAre (program_of bytes.now) starts },
}
