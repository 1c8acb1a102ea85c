// A rule is broken: no satisfying assignment extends the partial.
#[derive(Clone, Copy, PartialEq, Eq, Debug)]
pub struct Clash;
