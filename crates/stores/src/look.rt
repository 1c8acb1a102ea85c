// The answers of a look and of a walk over all rules, and the refusal of a look.
ghost use Rattle.std.specs.Prelude.{◌≡◌};
ghost use Rattle.stores.specs.Numbers.{number_of};
ghost use Rattle.stores.specs.Walks.{find_of, is_settled};

// What a look says of a rule under a partial assignment.
#[derive(Clone, Copy, PartialEq, Eq, Debug)]
pub enum Look {
    // every full assignment that extends the partial satisfies the rule
    Settled,
    // none does
    Broken,
    // its variable is free, and every one that does makes this literal true
    Forces(i32),
    // none of these is known; the count is from 2 to the number of free variables
    Open(usize),
}

// What a rule that is broken or forces is to a walk.
#[derive(Clone, Copy, PartialEq, Eq, Debug)]
pub enum Find {
    Clash,
    Force(i32),
}

impl Look {
    // What a walk finds at a rule that is broken or forces.
    pub fn found(self) -> Option<Find>
        ensures { result ≡ find_of self }
    {
        match self {
            Look::Broken => Some(Find::Clash),
            Look::Forces(literal) => Some(Find::Force(literal)),
            Look::Settled | Look::Open(_) => None,
        }
    }

    pub fn is_settled(self) -> bool
        ensures { result ≡ is_settled self }
    {
        matches!(self, Look::Settled)
    }
}

// Why a look or a hand-out is refused.
#[derive(Clone, Copy, PartialEq, Eq, Debug)]
pub enum Refusal {
    // no such rule, or a partial that is not one byte from 0 to 2 for each variable
    Unfit = 18,
}

impl Refusal {
    // The number under which a refusal is reported.
    pub fn number(self) -> u32
        ensures { result ≡ number_of self }
    {
        self as u32
    }
}
