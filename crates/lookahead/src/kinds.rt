// What a variable's turn and a node come to.
ghost use Rattle.std.specs.Prelude.{◌≤◌};
ghost use Rattle.lookahead.specs.Trials.{most_gain};

// What a variable's true side gains, and its false side.
#[derive(Clone, Copy)]
pub struct Gains {
    pub yes: u32,
    pub no: u32,
    ghost low: { (yes ≤ most_gain) × (no ≤ most_gain) },
}

// What becomes of a branch.
#[derive(Clone, Copy, PartialEq, Eq, Debug)]
pub enum Outcome {
    // no satisfying assignment extends it
    Refuted,
    // the partial, with its free variables false, satisfies every rule
    Model,
    // the cutoff says that it is to be handed out
    Cube,
    // it goes on with this literal and, after that, with its negation
    Decided(i32),
}
