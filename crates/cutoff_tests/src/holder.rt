// A cutoff kept beside lent memory, as a splitter keeps it.
ghost use Rattle.std.specs.Prelude.{◌≡◌, IsSomeAnd};
ghost use Rattle.cutoff.specs.Theta.{grow, shrink};
ghost use Rattle.cutoff.specs.Cutoffs.{eased, cuts_at};
ghost use Rattle.cutoff.specs.Keeping.{kept_cutoff};

use cutoff::{Cutoff, Kept, Kind};

#[derive(Drop)]
pub struct Holder<'a> {
    trail: &'a mut [i32],
    cutoff: Kept,
}

impl Holder<'_> {
    // One node that is refuted: up, and down again.
    pub fn refuted(&mut self)
        ensures { kept_cutoff self.new.cutoff ≡ eased shrink (eased grow (kept_cutoff self.old.cutoff)) }
    {
        let mut cutoff = self.cutoff.cutoff();
        cutoff.rise();
        cutoff.fall();
        self.cutoff = Kept::keep(cutoff);
    }

    pub fn cuts(&self, n: u16, decisions: u16, set: u16) -> bool
        ensures { result ≡ cuts_at (kept_cutoff self.now.cutoff) n decisions set }
    {
        self.cutoff.cutoff().cuts(n, decisions, set)
    }
}

// What is kept, written as two bare numbers and made from them again.
fn again(kept: Kept) -> Option<Kept>
    ensures { IsSomeAnd result (λ same. kept_cutoff same ≡ kept_cutoff kept) }
{
    let (first, bits) = (kept.kind.number(), kept.bits);
    let kind = Kind::from_number(first)?;
    Some(Kept { kind, bits })
}

#[test]
fn a_node_moves_the_kept_threshold(rt: HostRuntime) {
    let mut memory = [0i32; 4];
    let cutoff = Cutoff::Easing(2.5);
    assert!(rt; cutoff.check().is_ok());
    let mut holder = Holder {
        trail: &mut memory,
        cutoff: Kept::keep(cutoff),
    };
    holder.refuted();
    assert!(rt; holder.trail.len() == 4);
    assert!(rt; holder.cutoff.bits == 0x3ffd666666666666);
    assert!(rt; holder.cuts(2, 2, 2) && !holder.cuts(2, 1, 2));
}

#[test]
fn two_numbers_come_back(rt: HostRuntime) {
    let cutoff = Cutoff::Share(0.5);
    assert!(rt; cutoff.check().is_ok());
    let kept = Kept::keep(cutoff);
    assert!(rt; kept.kind.number() == 2);
    assert!(rt; again(kept) == Some(kept));
}
