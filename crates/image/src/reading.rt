// Reads an image section by section.
ghost use Rattle.std.specs.Prelude.{◌≡◌, ◌+◌, ◌*◌, ◌/◌, ◌<◌, ◌≤◌, length, MatchResult};
ghost use Rattle.rules.specs.Image.{pair_at};
ghost use Rattle.image.specs.declared.fault.ImageFault.TheVariants.{TooShort, BytesLeftOver};
ghost use Rattle.image.specs.Parts.{section_of, part_of};
ghost use Rattle.image.specs.Refusals.{RefusedBy};
ghost use Rattle.image.specs.Reading.{Stands, Counted, Found, Missing};

use crate::fault::ImageFault;
use crate::records::{check_activations, unit_starts};
use crate::sections::{Image, Kind, Part, Section};

// An image that is being read, and the place that the reading has come to.
#[derive(Drop)]
struct Reader<'a> {
    image: &'a [u8],
    place: usize,
}

impl<'a> Reader<'a> {
    // The next `n` bytes, or a refusal where fewer are left.
    fn part(&mut self, n: usize) -> Result<Part<'a>, ImageFault>
        ensures image { self.new.image.now ≡ self.old.image.now }
        ensures part { MatchResult result (λ p. (self.new.place ≡ self.old.place + n) × (self.old.place + n ≤ length self.old.image.now) × Stands self.old.image.now self.old.place n p) (λ e. (length self.old.image.now < self.old.place + n) × (e ≡ TooShort self.old.place)) }
    {
        let offset = self.place;
        let size = self.image.len();
        if size < offset || size - offset < n {
            return Err(ImageFault::TooShort(offset));
        }
        self.place = offset + n;
        Ok(Part {
            offset,
            bytes: &self.image[offset..offset + n],
        })
    }

    // The next count, of a section of this kind.
    fn count(&mut self, kind: Kind) -> Result<usize, ImageFault>
        ensures image { self.new.image.now ≡ self.old.image.now }
        ensures count { MatchResult result (λ n. (self.new.place ≡ self.old.place + 2) × Counted self.old.image.now self.old.place (section_of kind) × (n ≡ pair_at self.old.image.now self.old.place) × (n < 65536)) (λ e. Missing self.old.image.now self.old.place (section_of kind) e) }
    {
        let part = self.part(2)?;
        let n = usize::from(u16::from_le_bytes([part.bytes[0], part.bytes[1]]));
        if !kind.counts().contains(&n) {
            return Err(ImageFault::CountOutOfRange(part.offset));
        }
        Ok(n)
    }

    // The next section, which is of this kind, behind its count.
    fn section(&mut self, kind: Kind) -> Result<Section<'a>, ImageFault>
        ensures image { self.new.image.now ≡ self.old.image.now }
        ensures section { MatchResult result (λ x. (self.new.place ≡ (part_of x).offset + length (part_of x).bytes.now) × Found self.old.image.now self.old.place kind x) (λ e. Missing self.old.image.now self.old.place (section_of kind) e) }
    {
        let n = self.count(kind)?;
        let part = self.part(kind.record_size() * n)?;
        let section = match kind {
            Kind::Data => Section::Data(part),
            Kind::Mechanisms => Section::Mechanisms(part),
            Kind::Modules => Section::Modules(part),
            Kind::Lines => Section::Lines(part),
        };
        Ok(section)
    }

    // Refuses what is left over.
    fn finish(&self) -> Result<(), ImageFault>
        ensures { MatchResult result (λ _. length self.now.image.now ≤ self.now.place) (λ e. (self.now.place < length self.now.image.now) × (e ≡ BytesLeftOver self.now.place)) }
    {
        if self.place < self.image.len() {
            return Err(ImageFault::BytesLeftOver(self.place));
        }
        Ok(())
    }
}

/// The sections of an image, or the refusal that it earns.
pub fn read_image(image: &[u8]) -> Result<Image<'_>, ImageFault>
    ensures { MatchResult result (λ i. i.bytes.now ≡ image.now) (λ e. RefusedBy image.now e) }
{
    let mut reader = Reader { image, place: 0 };
    let data = reader.section(Kind::Data)?;
    let mechanisms = reader.section(Kind::Mechanisms)?;
    check_activations(8 * data.part().bytes.len(), mechanisms.part())?;
    let modules = reader.section(Kind::Modules)?;
    let lines_at = reader.place;
    let lines = reader.section(Kind::Lines)?;
    reader.finish()?;
    let (starts, total) = unit_starts(modules.part().bytes);
    if total != lines.part().bytes.len() / 4 {
        return Err(ImageFault::WrongTotal(lines_at));
    }
    Ok(Image {
        bytes: image,
        data,
        mechanisms,
        modules,
        lines,
        starts,
    })
}
