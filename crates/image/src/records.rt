// The records of the mechanism and module sections.
ghost use Rattle.std.specs.Prelude.{◌≡◌, ℕ, ◌+◌, ◌*◌, ◌/◌, ◌^◌, ◌<◌, length, take, MatchResult, slice_index};
ghost use Rattle.rules.specs.Program.{total};
ghost use Rattle.rules.specs.Image.{pairs_from};
ghost use Rattle.image.specs.Reading.{PairsBelow, FirstOutside};

use crate::fault::ImageFault;
use crate::sections::Part;

// Refuses the first activation bit that is not one of the `bits` of the data.
pub(crate) fn check_activations(bits: usize, part: Part<'_>) -> Result<(), ImageFault>
    requires { part.offset + length part.bytes.now < 2 ^ 64 }
    ensures { MatchResult result (λ _. PairsBelow part.entry.bytes.now bits (length part.entry.bytes.now / 2)) (λ e. FirstOutside bits part.entry e) }
{
    let (records, _) = part.bytes.as_chunks::<2>();
    let outside = records
        .iter()
        .position(|record| bits <= usize::from(u16::from_le_bytes(*record)));
    match outside {
        Some(i) => Err(ImageFault::ActivationOutside(part.offset + 2 * i)),
        None => Ok(()),
    }
}

// kept: a rule of the project; the first lines are built by a loop over the module records with their index.
// The first line of each module, and how many lines all have.
pub(crate) fn unit_starts(modules: &[u8]) -> ([usize; 7], usize)
    requires { length modules.now ≡ 14 }
    ensures starts { (m : ℕ) → m < 7 → slice_index result.0 m ≡ total (take m (pairs_from modules.now 0 (length modules.now / 2))) }
    ensures lines { result.1 ≡ total (pairs_from modules.now 0 (length modules.now / 2)) }
{
    let (records, _) = modules.as_chunks::<2>();
    let mut starts = [0; 7];
    let mut sum = 0;
    for (i, record) in records.iter().enumerate() {
        starts[i] = sum;
        sum += usize::from(u16::from_le_bytes(*record));
    }
    (starts, sum)
}
