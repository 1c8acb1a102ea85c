// What the book holds, and the token that stands for a cube that is out.
ghost use Rattle.std.specs.Prelude.{◌≡◌, ◌≤◌, true, length};

mod calls;

#[derive(Clone, Copy, PartialEq, Eq, Debug)]
pub enum Mark {
    Waiting,
    Out,
    Closed,
}

#[derive(Clone, Copy)]
pub enum Event {
    Lend,
    Close,
    Back,
}

// What a holder says of the cube that it settles: it is done with, or it waits again.
#[derive(Clone, Copy)]
pub enum Word {
    Closed,
    Back,
}

#[derive(Clone, Copy, PartialEq, Eq, Debug)]
pub enum Refusal {
    // there are 4,096 cubes in the book
    Full = 23,
    // no such cube waits
    NotWaiting = 26,
    // that cube is not out here
    NotOut = 27,
}

// A cube that was lent. Only the book makes one, it is not copied, and it may be let go only once it is settled.
pub struct Loan {
    cube: u16,
    // Stays: by the project's rule a spent loan is handed back, and that it is let go or settled twice is refused by the prover, not by a type.
    settled: bool,
}

impl Drop for Loan {
    fn drop(self)
        requires { self.settled ≡ true }
    {
        let Loan {
            cube: _,
            settled: _,
        } = self;
    }
}

// The first `count` rows are the cubes, cube 1 first; the rows behind them are free.
// Stays: two ghost fields and no model, which would hide from callers that there are at most 4,096 cubes.
#[derive(Drop)]
pub struct Book {
    // Stays: by the project's rule a book's memory is fixed, 4,096 entries, with none on the heap.
    marks: [Mark; 4096],
    count: u16,
    ghost few: { count ≤ 4096 },
    ghost whole: { length marks ≡ 4096 },
}
