ghost use Rattle.std.specs.Prelude.{◌≡◌, ◌+◌, List, [], length, MatchOption};
ghost use Rattle.book.specs.Marks.{marks_of};
ghost use Rattle.holder.specs.Held.{loans_of};
ghost use Rattle.holder_tests.specs.Agree.{Agree};

use book::{Book, Word};
use holder::Loans;
use std::alloc::Global;

// A book, and a loan of each of its cubes that is out.
pub struct Office {
    pub book: Book,
    pub loans: Loans,
    ghost agree: { Agree (marks_of book) (loans_of loans) },
}

impl Office {
    // Three cubes that wait.
    pub fn new(heap: Global) -> Office {
        let mut book = Book::new();
        let _ = book.enter();
        let _ = book.enter();
        let _ = book.enter();
        Office {
            book,
            loans: Loans::new(heap),
        }
    }

    // Borrows a cube and keeps its loan; false where that is refused.
    // Stays: a bool, since the tests ask no more, and memory and the book refuse with two types.
    pub fn lend(&mut self, cube: u16) -> bool {
        let Ok(()) = self.loans.reserve() else {
            return false;
        };
        match self.book.lend(cube) {
            Err(_) => false,
            Ok(loan) => {
                self.loans.keep(loan);
                true
            }
        }
    }

    // Gives a cube back; false where no loan of it is held.
    pub fn give_back(&mut self, cube: u32) -> bool {
        let Some(loan) = self.loans.take(cube) else {
            return false;
        };
        let _spent = self.book.settle(loan, Word::Back).unwrap();
        true
    }

    // Gives the cube of the newest loan back, and tells which it was.
    pub fn give_back_newest(&mut self) -> Option<u16>
        ensures { MatchOption result (loans_of self.new.loans ≡ []) (λ _. length (loans_of self.new.loans) + 1 ≡ length (loans_of self.old.loans)) }
    {
        let loan = self.loans.pop()?;
        let spent = self.book.settle(loan, Word::Back).unwrap();
        Some(spent.cube())
    }

    // Gives every cube back, and ends the collection.
    pub fn close(mut self) -> Book {
        while self.give_back_newest().is_some() {}
        let Office { book, loans } = self;
        loans.close();
        book
    }
}
