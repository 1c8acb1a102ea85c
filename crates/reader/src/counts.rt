// What a text that was accepted holds.
ghost use Rattle.std.specs.Prelude.{◌≡◌, ◌+◌, ◌-◌, ◌^◌, ◌<◌, ◌&&◌, [], nat_le};
ghost use Rattle.reader.specs.Reading.{counts_of};
ghost use Rattle.reader.specs.Turns.{one_more, counted_with};

use crate::parts::Shape;
use rules::Kind;

// What a table holds: how many rules, and how many numbers they take.
#[derive(Clone, Copy, PartialEq, Eq, Debug)]
pub struct Size {
    pub rules: usize,
    pub numbers: usize,
}

impl Size {
    // One rule more; a table holds its literals and a 0.
    fn with(self, literals: usize) -> Size
        requires { self.rules + self.numbers + literals < 2 ^ 64 - 1 }
        ensures { result ≡ one_more literals self }
    {
        Size {
            rules: self.rules + 1,
            numbers: self.numbers + literals + 1,
        }
    }
}

// How many variables a question has, and what its rules take of each table.
#[derive(Clone, Copy, PartialEq, Eq, Debug)]
pub struct Counts {
    pub variables: usize,
    pub clauses: Size,
    pub odds: Size,
}

impl Counts {
    // Before the first rule.
    pub(crate) fn none(variables: usize) -> Counts
        ensures { result ≡ counts_of (record { variables = variables; rules = [] }) }
    {
        let none = Size {
            rules: 0,
            numbers: 0,
        };
        Counts {
            variables,
            clauses: none,
            odds: none,
        }
    }

    // One rule more.
    pub(crate) fn with(self, rule: Shape) -> Counts
        requires { self.clauses.rules + self.odds.rules + self.clauses.numbers + self.odds.numbers + rule.literals < 2 ^ 64 - 1 }
        ensures value { result ≡ counted_with self rule }
        ensures rules { result.clauses.rules + result.odds.rules ≡ self.clauses.rules + self.odds.rules + 1 }
        ensures numbers { result.clauses.numbers + result.odds.numbers ≡ self.clauses.numbers + self.odds.numbers + rule.literals + 1 }
    {
        match rule.kind {
            Kind::Clause => Counts {
                clauses: self.clauses.with(rule.literals),
                ..self
            },
            Kind::Odd => Counts {
                odds: self.odds.with(rule.literals),
                ..self
            },
        }
    }

    // Whether tables of c and o places have room for the rules.
    pub(crate) fn fit(self, c: usize, o: usize) -> bool
        ensures { result ≡ (nat_le self.clauses.numbers c && nat_le self.odds.numbers o) }
    {
        self.clauses.numbers <= c && self.odds.numbers <= o
    }
}
