// How many entries there are of each kind.
ghost use Rattle.std.specs.Prelude.{◌≡◌, ◌+◌, ◌-◌, ◌^◌, ◌<◌, ◌≤◌};
ghost use Rattle.lines.specs.Lines.{of_kind, line_of};
ghost use Rattle.textoutlet.specs.Counting.{counted, next_line};

use lines::Line;
use outlet::Kind;

#[derive(Clone, Copy)]
pub struct Counts {
    pub cubes: u64,
    pub learnt: u64,
}

impl Counts {
    fn of(self, kind: Kind) -> u64
        ensures value { result ≡ of_kind kind self.cubes self.learnt }
        ensures within { result ≤ self.cubes + self.learnt }
    {
        match kind {
            Kind::Cube => self.cubes,
            Kind::Learnt => self.learnt,
        }
    }

    // The line of an entry that comes after so many.
    pub fn line<'b>(self, kind: Kind, lits: &'b [i32]) -> Line<'b>
        requires { self.cubes + self.learnt < 2 ^ 64 - 1 }
        ensures line { line_of result ≡ next_line self kind lits.now }
        ensures lits { result.lits.now ≡ lits.now }
    {
        Line {
            kind,
            number: self.of(kind) + 1,
            lits,
        }
    }

    // Counts one more of a kind.
    pub fn add(&mut self, kind: Kind)
        requires { of_kind kind self.old.cubes self.old.learnt < 2 ^ 64 - 1 }
        ensures { self.new ≡ counted kind self.old }
    {
        match kind {
            Kind::Cube => self.cubes += 1,
            Kind::Learnt => self.learnt += 1,
        }
    }
}
