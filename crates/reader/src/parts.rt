// What the parts of the reader hand on.
ghost use Rattle.std.specs.Prelude.{◌≤◌};

use crate::counts::Counts;
use crate::words::Reader;
use rules::Kind;

// One rule as it was read: its kind, and how many literals it has.
#[derive(Clone, Copy)]
pub struct Shape {
    pub kind: Kind,
    pub literals: usize,
}

// What the header says: how many variables there are, and how many rules follow.
#[derive(Clone, Copy)]
pub struct Header {
    pub variables: usize,
    pub rules: usize,
    ghost few: { variables ≤ 2048 },
}

// A text that is well formed: what it holds, and a reader that has its rules ahead.
#[derive(Clone, Copy)]
pub struct Plan<'a> {
    pub counts: Counts,
    pub ahead: Reader<'a>,
}
