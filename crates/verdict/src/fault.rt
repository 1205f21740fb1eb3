// Why a load is refused.
ghost use Rattle.std.specs.Prelude.{◌≡◌};
ghost use Rattle.verdict.specs.Loads.{load_refusal, from_check};
ghost use Rattle.verdict.specs.declared.fault.LoadFault.TheVariants.{Image, Memory};

use image::fault::ImageFault;
use rules::refusal::Refusal;
use std::alloc::AllocError;
use text::fault::{CheckFault, TextFault};

/// Why a load is refused: the image's fault or the text's, whole, or want of memory.
#[derive(Clone, Copy, Debug, PartialEq, Eq)]
pub enum LoadFault {
    Image(ImageFault),
    Text(TextFault),
    Memory,
}

// kept: the conversions are written out, since clauses name the error that each `?` makes, and a derive would state none; no plainer
impl From<ImageFault> for LoadFault {
    ghost from_gives = { λ f r. r ≡ Image f };

    fn from(fault: ImageFault) -> LoadFault {
        LoadFault::Image(fault)
    }
}

impl From<CheckFault> for LoadFault {
    ghost from_gives = { λ f r. r ≡ from_check f };

    fn from(fault: CheckFault) -> LoadFault {
        match fault {
            CheckFault::Text(fault) => LoadFault::Text(fault),
            CheckFault::Memory => LoadFault::Memory,
        }
    }
}

impl From<AllocError> for LoadFault {
    ghost from_gives = { λ _ r. r ≡ Memory };

    fn from(_e: AllocError) -> LoadFault {
        LoadFault::Memory
    }
}

impl LoadFault {
    /// The refusal, whole; want of memory is none.
    pub fn refusal(self) -> Option<Refusal>
        ensures { result ≡ load_refusal self }
    {
        match self {
            LoadFault::Image(fault) => Some(fault.into()),
            LoadFault::Text(fault) => Some(fault.into()),
            LoadFault::Memory => None,
        }
    }
}
