// What can be wrong with an image, and the refusal that it earns.
ghost use Rattle.std.specs.Prelude.{◌≡◌};
ghost use Rattle.image.specs.Refusals.{image_refusal};

use rules::refusal::{Layer, Refusal, Rule};

/// What is wrong with an image, each with the offset that it is found at.
#[derive(Clone, Copy, Debug, PartialEq, Eq)]
pub enum ImageFault {
    // fewer bytes are left than a count or a section needs: where it begins
    TooShort(usize),
    // a count outside its range: the count
    CountOutOfRange(usize),
    // an activation bit outside the data: its record
    ActivationOutside(usize),
    // bytes behind the last section: the first of them
    BytesLeftOver(usize),
    // the modules' lengths do not add up to the number of lines: the count of the lines
    WrongTotal(usize),
}

/// The refusal by a fault of the image, whole: rule, layer and place.
impl From<ImageFault> for Refusal {
    ghost from_gives = { λ f r. r ≡ image_refusal f };

    fn from(fault: ImageFault) -> Refusal {
        let (rule, place) = match fault {
            ImageFault::TooShort(place) => (Rule::TooShort, place),
            ImageFault::CountOutOfRange(place) => (Rule::CountOutOfRange, place),
            ImageFault::ActivationOutside(place) => (Rule::ActivationOutside, place),
            ImageFault::BytesLeftOver(place) => (Rule::BytesLeftOver, place),
            ImageFault::WrongTotal(place) => (Rule::WrongTotal, place),
        };
        Refusal {
            rule,
            layer: Layer::Image,
            place,
        }
    }
}
