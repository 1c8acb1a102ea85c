ghost use Rattle.std.specs.Prelude.{◌≡◌, ℕ, ◌+◌, ◌<◌, true, false, List, [], ◌∷◌, ◌++◌, length, Some, MatchOption, OnOk, ◌==◌, position};
ghost use Rattle.holder.specs.Tokens.{count_of, cube_at};
ghost use Rattle.holder.specs.Held.{loans_of, has_room, Taken, Popped};

use super::Loans;
use book::Loan;
use std::alloc::{AllocError, Global};

impl Loans {
    pub fn new(heap: Global) -> Loans
        ensures { loans_of result ≡ [] }
    {
        Loans {
            held: Vec::new(heap),
        }
    }

    // Makes room for one more loan.
    pub fn reserve(&mut self) -> Result<(), AllocError>
        ensures same { loans_of self.new ≡ loans_of self.old }
        ensures room { OnOk result (has_room self.new) }
    {
        self.held.reserve(1)
    }

    // Adds a loan behind the others. There is room for it, so that none is lost for want of memory.
    pub fn keep(&mut self, loan: Loan)
        requires room { has_room self.old }
        requires fresh { loan.settled ≡ false }
        ensures { loans_of self.new ≡ loans_of self.old ++ loan ∷ [] }
    {
        self.held.push_reserved(loan);
    }

    pub fn len(&self) -> usize
        ensures { result ≡ length (loans_of self.now) }
    {
        self.held.len()
    }

    // The cube of the loan at a place; none behind the last.
    pub fn cube(&self, i: usize) -> Option<u16>
        ensures { result ≡ cube_at (loans_of self.now) i }
    {
        self.held.get(i).map(Loan::cube)
    }

    // The place of the first loan of the cube.
    fn find(&self, cube: u32) -> Option<usize>
        ensures { result ≡ position (λ l. l.cube == cube) (loans_of self.now) }
    {
        self.held
            .iter()
            .position(|loan| u32::from(loan.cube()) == cube)
    }

    // Takes out a loan of the cube.
    pub fn take(&mut self, cube: u32) -> Option<Loan>
        ensures { MatchOption result ((count_of cube (loans_of self.old) ≡ 0) × (self.new ≡ self.old)) (Taken cube self.old self.new) }
    {
        let i = self.find(cube)?;
        Some(self.held.remove(i))
    }

    // Takes out the newest loan.
    pub fn pop(&mut self) -> Option<Loan>
        ensures { MatchOption result ((loans_of self.old ≡ []) × (self.new ≡ self.old)) (Popped self.old self.new) }
    {
        // Stays: asked before `Vec::pop`, which does not say that an empty collection keeps its memory.
        if self.held.is_empty() {
            return None;
        }
        self.held.pop()
    }

    // Ends the collection, once no loan is held.
    pub fn close(self)
        requires { loans_of self ≡ [] }
    {
        let Loans { held } = self;
        held.destroy_empty();
    }
}
