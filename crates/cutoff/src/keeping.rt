// A cutoff as two numbers, for whoever keeps one beside lent memory.
ghost use Rattle.std.specs.Prelude.{◌≡◌, ◌<◌, true, Some, MatchOption};
ghost use Rattle.cutoff.specs.Cutoffs.{allowed, kind_of, first_of, bits_of, cutoff_of, kind_number, kind_at};

use crate::kinds::Cutoff;
use crate::theta::{bits, from_bits};

#[derive(Clone, Copy, PartialEq, Eq, Debug)]
pub enum Kind {
    Never = 0,
    Depth = 1,
    Share = 2,
    Easing = 3,
}

impl Kind {
    // The number that stands for a kind where a cutoff is kept as two.
    pub fn number(self) -> u8
        ensures value { result ≡ kind_number self }
        ensures same { kind_at result ≡ Some self }
    {
        self as u8
    }

    // The kind that a number stands for; none above 3.
    // Stays: no `TryFrom`, since an error would have nothing to say.
    pub fn from_number(number: u8) -> Option<Kind>
        ensures value { result ≡ kind_at number }
        ensures same { MatchOption result (3 < number) (λ kind. kind_number kind ≡ number) }
    {
        match number {
            0 => Some(Kind::Never),
            1 => Some(Kind::Depth),
            2 => Some(Kind::Share),
            3 => Some(Kind::Easing),
            _ => None,
        }
    }
}

// The kind, and the depth or the threshold's bits; 0 where there is neither.
// Stays: two fields, since by the project's rule whoever holds lent memory keeps the kind and the bits, and an enum has no invariant.
#[derive(Clone, Copy, PartialEq, Eq, Debug)]
pub struct Kept {
    pub kind: Kind,
    pub bits: u64,
    ghost ok: { allowed (cutoff_of kind bits) ≡ true },
}

impl Kept {
    ghost use Rattle.cutoff.specs.Keeping.{kept_cutoff};

    // Of a cutoff that was checked.
    // Stays: no `From`, which can't ask that the cutoff was checked.
    pub fn keep(cutoff: Cutoff) -> Kept
        requires { allowed cutoff ≡ true }
        ensures kind { result.kind ≡ kind_of cutoff }
        ensures first { kind_number result.kind ≡ first_of cutoff }
        ensures number { result.bits ≡ bits_of cutoff }
        ensures same { kept_cutoff result ≡ cutoff }
    {
        let (kind, bits) = match cutoff {
            Cutoff::Never => (Kind::Never, 0),
            Cutoff::Depth(depth) => (Kind::Depth, u64::from(depth)),
            Cutoff::Share(theta) => (Kind::Share, bits(theta)),
            Cutoff::Easing(theta) => (Kind::Easing, bits(theta)),
        };
        Kept { kind, bits }
    }

    // Stays: a method beside `keep`, which it undoes; a `From` would read no plainer.
    pub fn cutoff(&self) -> Cutoff
        ensures value { result ≡ kept_cutoff self.now }
        ensures range { allowed result ≡ true }
    {
        match self.kind {
            Kind::Never => Cutoff::Never,
            Kind::Depth => Cutoff::Depth(self.bits as u16),
            Kind::Share => Cutoff::Share(from_bits(self.bits)),
            Kind::Easing => Cutoff::Easing(from_bits(self.bits)),
        }
    }
}
