//! A stack over lent memory, for elements of any kind that is copied.
#![tactic(auto)]

pub mod kinds;

pub use kinds::{Record, Refusal};

// Of `cells` the first `len` are on the stack. The memory may be lent whole, as `f(stack.cells, n)`, to a function that
// writes behind the content; the length changes only here.
// Stays: a slice and a length, since the memory is the caller's. A Model is no plainer: callers lend `cells`, and clauses say
// which reference it is, so that its value would be the fields once more.
// Stays: that the content lies within the memory is the premise `sound` and no ghost field, since a caller may put other
// memory in the place of `cells`; the calls then go by what is left of the content.
#[derive(Drop)]
pub struct Stack<'a, T> {
    pub cells: &'a mut [T],
    len: usize,
}

impl<'a, T: Copy> Stack<'a, T> {
    ghost use Rattle.std.specs.Prelude.{◌≡◌, ◌+◌, ◌<◌, ◌≤◌, min, length, [], ◌∷◌, ◌++◌, take, drop, if◌then◌else◌, MatchOption, nat_le, slice_set};
    ghost use Rattle.std.specs.List.{slice_get};
    ghost use Rattle.stack.specs.Items.{items, spares, size, sound, has_room, push_reply, pushed, check_reply};

    // The check that may refuse: whether the memory has so many places.
    pub fn check(cells: &[T], places: usize) -> Result<(), Refusal>
        ensures { result ≡ check_reply (nat_le places (length cells.now)) }
    {
        if places > cells.len() {
            return Err(Refusal::Short);
        }
        Ok(())
    }

    // The making that cannot: an empty stack over all of the memory, which is not written.
    pub fn new(cells: &'a mut [T]) -> Stack<'a, T>
        ensures empty { result.len ≡ 0 }
        ensures items { items result ≡ [] }
        ensures whole { sound result }
        ensures memory { result.cells.now ≡ cells.old }
        ensures same { result.cells.ghost_name ≡ cells.entry.ghost_name }
    {
        Stack { cells, len: 0 }
    }

    pub fn len(&self) -> usize
        ensures value { result ≡ self.now.len }
        ensures items { sound self.now → result ≡ length (items self.now) }
    {
        self.len // every call keeps it within the memory
    }

    #[tactic(auto, using(crate::proofs::Places::places))]
    pub fn as_slice(&self) -> &[T]
        ensures { result.now ≡ items self.now }
    {
        &self.cells[..self.len.min(self.cells.len())]
    }

    // A full stack hands the element back.
    pub fn push(&mut self, x: T) -> Result<(), T>
        ensures value { result ≡ push_reply (has_room self.old) x }
        ensures items { items self.new ≡ pushed (has_room self.old) (items self.old) x }
        ensures whole { sound self.old → sound self.new }
        ensures len { self.new.len ≡ (if has_room self.old then self.old.len + 1 else self.old.len) }
        ensures memory { self.new.cells.now ≡ slice_set self.old.cells.now self.old.len x }
        ensures same { self.new.cells.ghost_name ≡ self.old.cells.ghost_name }
    {
        if self.len >= self.cells.len() {
            return Err(x);
        }
        self.cells[self.len] = x;
        self.len += 1;
        Ok(())
    }

    // The same for a caller that knows of a place; a full stack stays as it is.
    // Stays: beside `push`, so that such callers have no answer to throw away.
    pub fn put(&mut self, x: T)
        ensures room { self.old.len < size self.old → (items self.new ≡ items self.old ++ x ∷ []) × (self.new.len ≡ self.old.len + 1) }
        ensures full { size self.old ≤ self.old.len → self.new.len ≡ self.old.len }
        ensures whole { sound self.old → sound self.new }
        ensures memory { self.new.cells.now ≡ slice_set self.old.cells.now self.old.len x }
        ensures size { size self.new ≡ size self.old }
        ensures same { self.new.cells.ghost_name ≡ self.old.cells.ghost_name }
    {
        let _ = self.push(x);
    }

    // Appends a slice for which there is room.
    #[tactic(auto, using(std::proofs::lemmas::Slice::overwrites))]
    pub fn extend_from_slice(&mut self, xs: &[T])
        requires { length xs.now ≤ length (spares self.old) }
        ensures items { items self.new ≡ items self.old ++ xs.now }
        ensures spares { spares self.new ≡ drop (length xs.now) (spares self.old) }
        ensures len { self.new.len ≡ self.old.len + length xs.now }
        ensures whole { sound self.old → sound self.new }
        ensures size { size self.new ≡ size self.old }
        ensures same { self.new.cells.ghost_name ≡ self.old.cells.ghost_name }
    {
        if xs.is_empty() {
            return;
        }
        let end = self.len + xs.len();
        self.cells[self.len..end].copy_from_slice(xs);
        self.len = end;
    }

    // Takes the newest element off; its place keeps the value.
    pub fn pop(&mut self) -> Option<T>
        ensures cases { MatchOption result
            ((sound self.old → items self.old ≡ []) × (self.new.len ≡ self.old.len))
            (λ x. (items self.old ≡ items self.new ++ x ∷ []) × (self.old.len ≡ self.new.len + 1)) }
        ensures whole { sound self.old → sound self.new }
        ensures memory { self.new.cells.now ≡ self.old.cells.now }
        ensures same { self.new.cells.ghost_name ≡ self.old.cells.ghost_name }
    {
        if self.len == 0 || self.len > self.cells.len() {
            return None;
        }
        self.len -= 1;
        Some(self.cells[self.len])
    }

    // Keeps the oldest n elements.
    pub fn truncate(&mut self, n: usize)
        ensures items { items self.new ≡ take n (items self.old) }
        ensures len { self.new.len ≡ min n self.old.len }
        ensures whole { sound self.old → sound self.new }
        ensures memory { self.new.cells.now ≡ self.old.cells.now }
        ensures same { self.new.cells.ghost_name ≡ self.old.cells.ghost_name }
    {
        self.len = n.min(self.len);
    }

    pub fn get(&self, i: usize) -> Option<T>
        ensures { result ≡ slice_get (items self.now) i }
    {
        self.as_slice().get(i).copied()
    }

    // How many places are left; they are scratch for whoever has the stack.
    pub fn spare_len(&self) -> usize
        ensures { result ≡ length (spares self.now) }
    {
        self.cells.len().saturating_sub(self.len)
    }

    // The unused place i, counted from the content's end.
    pub fn spare(&self, i: usize) -> Option<T>
        ensures { result ≡ slice_get (spares self.now) i }
    {
        self.cells.get(self.len..)?.get(i).copied()
    }

    // Writes the unused place i; the content stays, and past the memory nothing is written.
    #[tactic(auto, using(crate::proofs::Places::places))]
    pub fn set_spare(&mut self, i: usize, x: T)
        ensures spares { spares self.new ≡ slice_set (spares self.old) i x }
        ensures items { items self.new ≡ items self.old }
        ensures len { self.new.len ≡ self.old.len }
        ensures size { size self.new ≡ size self.old }
        ensures same { self.new.cells.ghost_name ≡ self.old.cells.ghost_name }
    {
        if i < self.spare_len() {
            self.cells[self.len + i] = x;
        }
    }

    // Takes the first k unused places into the content, as far as there are so many.
    #[tactic(auto, using(crate::proofs::Places::places))]
    pub fn keep_spares(&mut self, k: usize)
        ensures items { items self.new ≡ items self.old ++ take k (spares self.old) }
        ensures len { self.new.len ≡ self.old.len + min k (length (spares self.old)) }
        ensures whole { sound self.old → sound self.new }
        ensures memory { self.new.cells.now ≡ self.old.cells.now }
        ensures same { self.new.cells.ghost_name ≡ self.old.cells.ghost_name }
    {
        self.len += k.min(self.spare_len());
    }
}
