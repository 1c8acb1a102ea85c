// The kinds of entries, and why one is refused.
ghost use Rattle.std.specs.Prelude.{◌≡◌};
ghost use Rattle.outlet.specs.Entries.{number_of};

// A kind's discriminant is its number where entries are written as numbers.
#[derive(Clone, Copy, PartialEq, Eq, Debug)]
pub enum Kind {
    Cube = 1,
    Learnt = 2,
}

#[derive(Clone, Copy, PartialEq, Eq, Debug)]
pub enum Refusal {
    // the entry does not fit
    NoRoom = 24,
}

impl Refusal {
    // The number under which a refusal is reported.
    pub fn number(self) -> u32
        ensures { result ≡ number_of self }
    {
        self as u32
    }
}
