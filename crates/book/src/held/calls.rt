ghost use Rattle.std.specs.Prelude.{◌≡◌, ℕ, ◌+◌, ◌-◌, true, false, not, List, [], length, drop, if◌then◌else◌, nat_lt};
ghost use Rattle.book.specs.Marks.{number_of, marks_of, free_rows, mark_at, moves, asked, ChangesOnly, event_of, lend_reply, settle_reply, enter_reply, entered, tally_of};
ghost use Rattle.book.specs.declared.held.Event.TheVariants.{Lend};

use super::{Book, Event, Loan, Mark, Refusal, Word};

impl Refusal {
    // The number under which a refusal is reported.
    pub fn number(self) -> u32
        ensures { result ≡ number_of self }
    {
        self as u32
    }
}

impl Mark {
    // A state and an event together; other pairs are refused.
    fn after(self, event: Event) -> Option<Mark>
        ensures { result ≡ moves self event }
    {
        match (self, event) {
            (Mark::Waiting, Event::Lend) => Some(Mark::Out),
            (Mark::Out, Event::Close) => Some(Mark::Closed),
            (Mark::Out, Event::Back) => Some(Mark::Waiting),
            _ => None,
        }
    }
}

impl From<Word> for Event {
    ghost from_gives = { λ word event. event ≡ event_of word };

    fn from(word: Word) -> Event {
        match word {
            Word::Closed => Event::Close,
            Word::Back => Event::Back,
        }
    }
}

impl Loan {
    pub fn cube(&self) -> u16
        ensures { result ≡ self.now.cube }
    {
        self.cube
    }
}

impl Book {
    pub fn new() -> Book
        ensures { marks_of result ≡ [] }
    {
        Book {
            marks: [Mark::Waiting; 4096],
            count: 0,
        }
    }

    // The states of the cubes, cube 1 first.
    fn states(&self) -> &[Mark]
        ensures { result.now ≡ marks_of self.now }
    {
        &self.marks[..self.count as usize]
    }

    // The state of a cube; none where there is no such cube.
    pub fn state(&self, cube: u16) -> Option<Mark>
        ensures { result ≡ mark_at (marks_of self.now) cube }
    {
        let row = cube.checked_sub(1)? as usize;
        self.states().get(row).copied()
    }

    // Changes one entry by an event, if the pair is not refused.
    fn act(&mut self, cube: u16, event: Event) -> Option<Mark>
        ensures value { result ≡ asked (marks_of self.old) cube event }
        ensures rows { ChangesOnly self.old self.new cube result }
    {
        let next = self.state(cube)?.after(event)?;
        self.marks[cube as usize - 1] = next;
        Some(next)
    }

    // Gives the next cube a number; it waits.
    pub fn enter(&mut self) -> Result<u16, Refusal>
        ensures value { result ≡ enter_reply (length (marks_of self.old)) }
        ensures marks { marks_of self.new ≡ entered (marks_of self.old) }
        ensures free { free_rows self.new ≡ drop (if nat_lt (length (marks_of self.old)) 4096 then 1 else 0) (free_rows self.old) }
    {
        if self.is_full() {
            return Err(Refusal::Full);
        }
        self.marks[self.count as usize] = Mark::Waiting;
        self.count += 1;
        Ok(self.count)
    }

    pub fn is_full(&self) -> bool
        ensures { result ≡ not (nat_lt (length (marks_of self.now)) 4096) }
    {
        self.count >= 4096
    }

    // Lends a waiting cube out.
    pub fn lend(&mut self, cube: u16) -> Result<Loan, Refusal>
        ensures value { result ≡ lend_reply (asked (marks_of self.old) cube Lend) cube }
        ensures rows { ChangesOnly self.old self.new cube (asked (marks_of self.old) cube Lend) }
    {
        self.act(cube, Event::Lend).ok_or(Refusal::NotWaiting)?;
        Ok(Loan {
            cube,
            settled: false,
        })
    }

    // Settles a loan, which then may be let go. That it was not settled before is for the caller to prove.
    pub fn settle(&mut self, mut loan: Loan, word: Word) -> Result<Loan, (Refusal, Loan)>
        requires { loan.settled ≡ false }
        ensures value { result ≡ settle_reply (asked (marks_of self.old) loan.cube (event_of word)) loan }
        ensures rows { ChangesOnly self.old self.new loan.cube (asked (marks_of self.old) loan.cube (event_of word)) }
    {
        match self.act(loan.cube, word.into()) {
            Some(_) => {
                loan.settled = true;
                Ok(loan)
            }
            None => Err((Refusal::NotOut, loan)),
        }
    }

    // How many cubes are in a state.
    pub fn tally(&self, mark: Mark) -> u16
        ensures { result ≡ tally_of mark (marks_of self.now) }
    {
        self.states().iter().filter(|&&m| m == mark).count() as u16
    }
}
