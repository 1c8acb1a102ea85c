// The four cutoffs, and what is asked of one.
ghost use Rattle.std.specs.Prelude.{◌≡◌, true, false, T};
ghost use Rattle.std.specs.Float.Ieee.Positive.{positive};
ghost use Rattle.cutoff.specs.Theta.{grow, shrink, Nearest};
ghost use Rattle.cutoff.specs.Cutoffs.{allowed, check_reply, number_of, eased, cuts_at};
ghost use Rattle.cutoff.specs.Laws.{Moved, Cuts};

use crate::theta::{GROW, SHRINK, in_bounds, passes, scale};

#[derive(Clone, Copy)]
pub enum Cutoff {
    Never,
    // at so many decisions or more
    Depth(u16),
    // when decisions × set variables is greater than this threshold times the number of variables
    Share(f64),
    // the same, and the threshold moves
    Easing(f64),
}

#[derive(Clone, Copy, PartialEq, Eq, Debug)]
pub enum Refusal {
    // a depth above 2,048, or a threshold that is not from 0.001 to 1,000,000,000
    OutOfRange = 21,
}

impl Refusal {
    // The number under which a refusal is reported.
    pub fn number(self) -> u32
        ensures { result ≡ number_of self }
    {
        self as u32
    }
}

impl Cutoff {
    fn is_allowed(&self) -> bool
        ensures { result ≡ allowed self.now }
    {
        match *self {
            Cutoff::Never => true,
            Cutoff::Depth(depth) => depth <= 2048,
            Cutoff::Share(theta) | Cutoff::Easing(theta) => in_bounds(theta),
        }
    }

    // Refuses a cutoff that is out of range.
    #[tactic(auto, using(crate::proofs::Ranges::nearest))]
    pub fn check(&self) -> Result<(), Refusal>
        ensures value { result ≡ check_reply self.now }
        ensures nearest { Nearest }
    {
        if self.is_allowed() {
            Ok(())
        } else {
            Err(Refusal::OutOfRange)
        }
    }

    // θ becomes the factor times θ under easing.
    fn ease(&mut self, factor: f64)
        requires { T (positive factor) }
        ensures value { self.new ≡ eased factor self.old }
        ensures range { allowed self.old ≡ true → allowed self.new ≡ true }
        ensures law { allowed self.old ≡ true → Moved factor self.old self.new }
    {
        if let Cutoff::Easing(theta) = self {
            *theta = scale(*theta, factor);
        }
    }

    // θ becomes 1.05·θ under easing.
    #[tactic(auto, using(crate::proofs::Ranges::grow_positive))]
    pub fn rise(&mut self)
        ensures value { self.new ≡ eased grow self.old }
        ensures range { allowed self.old ≡ true → allowed self.new ≡ true }
        ensures law { allowed self.old ≡ true → Moved grow self.old self.new }
    {
        self.ease(GROW);
    }

    // θ becomes 0.7·θ under easing.
    #[tactic(auto, using(crate::proofs::Ranges::shrink_positive))]
    pub fn fall(&mut self)
        ensures value { self.new ≡ eased shrink self.old }
        ensures range { allowed self.old ≡ true → allowed self.new ≡ true }
        ensures law { allowed self.old ≡ true → Moved shrink self.old self.new }
    {
        self.ease(SHRINK);
    }

    // Whether a branch is cut: of n variables, with so many decisions and so many variables set.
    // Stays: three numbers and no struct of them, since they travel together in this call alone.
    pub fn cuts(&self, n: u16, decisions: u16, set: u16) -> bool
        ensures value { result ≡ cuts_at self.now n decisions set }
        ensures law { allowed self.now ≡ true → Cuts self.now n decisions set result }
    {
        match *self {
            Cutoff::Never => false,
            Cutoff::Depth(depth) => depth <= decisions,
            Cutoff::Share(theta) | Cutoff::Easing(theta) => passes(n, theta, decisions, set),
        }
    }
}
