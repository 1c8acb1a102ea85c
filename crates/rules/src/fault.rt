// What is wrong with an input, a rule file or a table, and where.
ghost use Rattle.std.specs.Prelude.{◌≡◌};
ghost use Rattle.rules.specs.Faults.{number_of, faulty};

#[derive(Clone, Copy, PartialEq, Eq, Debug)]
pub enum Reason {
    // the program's input is too long, or its first line is out of form
    Input = 10,
    // the first line that is neither blank nor a comment is no header within the limits
    Header = 11,
    // a word is out of form
    Form = 12,
    // a literal's variable is above the number of variables
    Variable = 13,
    // a variable stands twice in a rule
    Repeated = 14,
    // the end comes inside a rule
    Unended = 15,
    // the rules are not as many as the header says
    Count = 16,
    // a table is too short for the rules
    Short = 17,
    // a table or a store has counts beyond the limits, or two stores differ in their variables
    Limits = 19,
}

impl Reason {
    // The number under which a refusal is reported.
    pub fn number(self) -> u32
        ensures { result ≡ number_of self }
    {
        self as u32
    }

    // The refusal for this reason, met at this place.
    pub fn at(self, place: usize) -> Fault
        ensures { result ≡ faulty self place }
    {
        Fault {
            reason: self,
            place,
        }
    }
}

// A refusal of a text or a table: the reason, and the byte or the index where it was met.
#[derive(Clone, Copy, PartialEq, Eq, Debug)]
pub struct Fault {
    pub reason: Reason,
    pub place: usize,
}
