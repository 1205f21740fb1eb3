// Sets of mechanisms.
ghost use Rattle.std.specs.Prelude.{◌≡◌, bit_or};
ghost use Rattle.measures.specs.Meaning.{holds};
ghost use Rattle.measures.specs.Models.{bit_of, set_of, in_both};

/// A set of mechanisms, a bit for each; there are 32 at most.
#[derive(Clone, Copy, Debug, Default, PartialEq, Eq)]
pub struct MechanismSet {
    pub bits: u32,
}

impl MechanismSet {
    /// Whether the set has mechanism k.
    pub fn holds(self, k: usize) -> bool
        ensures { result ≡ holds self k }
    {
        k < 32 && (self.bits >> k) & 1 == 1
    }

    // The set with mechanism k besides.
    pub(crate) fn with(self, k: u16) -> MechanismSet
        ensures { result ≡ set_of (bit_or self.bits (bit_of k)) }
    {
        let bit = if k < 32 { 1 << k } else { 0 };
        MechanismSet {
            bits: self.bits | bit,
        }
    }

    // The mechanisms that both sets have.
    pub(crate) fn intersection(self, other: MechanismSet) -> MechanismSet
        ensures { result ≡ in_both self other }
    {
        MechanismSet {
            bits: self.bits & other.bits,
        }
    }
}
