// Which variables the rule that is being read has named so far.
ghost use Rattle.std.specs.Prelude.{◌≡◌, ℕ, ◌+◌, ◌-◌, ◌^◌, ◌<◌, true, false, List, [], ◌∷◌, ◌++◌, length, ℤ, ◌==◌, slice_index, slice_set};
ghost use Rattle.reader.specs.Marks.{none_above, has_place, Marked};

// A stamp for each variable: the rules count up, so that a new rule clears nothing.
// Stays: a set of the library's would be on the heap.
#[derive(Drop)]
pub struct Marks {
    stamps: [usize; 2048],
    top: usize,
    ghost long: { length stamps ≡ 2048 },
    ghost none_later: { none_above top stamps ≡ true },
}

impl Marks {
    pub fn new() -> Marks
        ensures { result.top ≡ 0 }
    {
        Marks {
            stamps: [0; 2048],
            top: 0,
        }
    }

    // A new rule, which has named none.
    pub fn begin(&mut self)
        requires { self.old.top < 2 ^ 64 - 1 }
        ensures top { self.new.top ≡ self.old.top + 1 }
        ensures none { Marked self.new.stamps self.new.top [] }
    {
        self.top += 1;
    }

    // Marks the variable whose byte has this place; answers whether it was marked.
    pub fn mark(&mut self, place: usize) -> bool
        requires { place < 2048 }
        ensures top { self.new.top ≡ self.old.top }
        ensures value { result ≡ (slice_index self.old.stamps place == self.old.top) }
        ensures stamps { self.new.stamps ≡ slice_set self.old.stamps place self.old.top }
    {
        let top = self.top;
        let known = self.stamps[place] == top;
        self.stamps[place] = top;
        known
    }
}
