// What the stacks of a splitter hold, and why one cannot be made.
ghost use Rattle.std.specs.Prelude.{◌≡◌};
ghost use Rattle.stack.specs.Items.{number_of};

// A decision, the trail's height at it, and whether its second side is being searched.
// Stays: `second` is a flag, since a decision has two sides and no more; an enum would only name the two again.
#[derive(Clone, Copy, PartialEq, Eq, Debug)]
pub struct Record {
    pub decision: i32,
    pub height: usize,
    pub second: bool,
}

#[derive(Clone, Copy, PartialEq, Eq, Debug)]
pub enum Refusal {
    // the memory has too few places
    Short = 22,
}

impl Refusal {
    // The number under which a refusal is reported.
    pub fn number(self) -> u32
        ensures { result ≡ number_of self }
    {
        self as u32
    }
}
