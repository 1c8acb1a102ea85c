// What makes a rule true.
#[derive(Clone, Copy, PartialEq, Eq, Debug)]
pub enum Kind {
    // a rule is satisfied if one of its literals is true
    Clause,
    // a rule is satisfied if an odd number of its literals is true
    Odd,
}
