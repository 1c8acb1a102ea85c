// Entries as lines in lent bytes: letter, number within the kind, literals.
ghost use Rattle.std.specs.Prelude.{◌≡◌, ◌+◌, ◌*◌, ◌^◌, ◌<◌, ◌≤◌, ◌-◌, List, [], length};
ghost use Rattle.std.specs.List.{AllByRecursion};
ghost use Rattle.stack.specs.Items.{spares, sound};
ghost use Rattle.outlet.specs.Memory.{Appended};
ghost use Rattle.lines.specs.Lines.{Narrow};
ghost use Rattle.textoutlet.specs.Counting.{next_line};

use crate::counts::Counts;
use outlet::{Append, Kind, Outlet, Refusal, put_if_room};
use stack::Stack;

// Puts the line of an entry behind the text, where there is room for it.
fn put_next(text: &mut Stack<u8>, counts: Counts, kind: Kind, lits: &[i32])
    requires few { counts.cubes + counts.learnt < 2 ^ 64 - 1 }
    requires room { length (next_line counts kind lits.now) ≤ length (spares text.old) }
    ensures line { Appended text.old (next_line counts kind lits.now) text.new }
    ensures narrow { AllByRecursion Narrow lits.now }
{
    counts.line(kind, lits).put(text);
}

// Entries are numbered within their kind. A line has four bytes at least, so no count reaches its limit.
#[derive(Drop)]
pub struct TextOutlet<'a> {
    text: Stack<'a, u8>,
    counts: Counts,
    ghost whole: { sound text },
    ghost few: { 4 * (counts.cubes + counts.learnt) ≤ text.len },
    ghost addressed: { length text.cells.now < 2 ^ 64 },
}

impl<'a> TextOutlet<'a> {
    ghost use Rattle.stack.specs.Items.{items};
    ghost use Rattle.outlet.specs.Entries.{Entry};
    ghost use Rattle.lines.specs.Lines.{text, NarrowEntry};
    ghost use Rattle.textoutlet.specs.TextHeld.{HoldsText};

    // An empty outlet over all of the memory, which is not written.
    pub fn new(bytes: &'a mut [u8]) -> TextOutlet<'a>
        ensures means { HoldsText result [] }
        ensures memory { (result.text.len ≡ 0) × (result.text.cells.now ≡ bytes.old) }
        ensures same { result.text.cells.ghost_name ≡ bytes.entry.ghost_name }
    {
        TextOutlet {
            text: Stack::new(bytes),
            counts: Counts {
                cubes: 0,
                learnt: 0,
            },
        }
    }

    // The text: exactly the lines of the entries, which no other list of entries has.
    #[tactic(auto, using(crate::proofs::Held::told))]
    pub fn as_slice(&self) -> &[u8]
        ensures value { result.now ≡ items self.now.text }
        ensures means { (es : List Entry) → HoldsText self.now es → result.now ≡ text es }
        ensures told { (es fs : List Entry) → HoldsText self.now es → AllByRecursion NarrowEntry fs → result.now ≡ text fs → fs ≡ es }
    {
        self.text.as_slice()
    }
}

impl<'a> Outlet for TextOutlet<'a> {
    ghost use Rattle.stack.specs.Items.{size};
    ghost use Rattle.textoutlet.specs.TextHeld.{HoldsText, KeepsText, text_fit};
    ghost use Rattle.textoutlet.specs.TextLaws.{text_laws};

    ghost means = { HoldsText };

    ghost fitting = { λ o. text_fit (size o.text) };

    ghost keeps = { KeepsText };

    ghost laws = { text_laws };

    fn fits(&self, kind: Kind, lits: &[i32]) -> bool {
        self.has_room(kind, lits)
    }

    fn put(&mut self, kind: Kind, lits: &[i32]) -> Result<(), Refusal> {
        put_if_room(self, kind, lits)
    }
}

impl<'a> Append for TextOutlet<'a> {
    ghost use Rattle.stack.specs.Items.{size};
    ghost use Rattle.textoutlet.specs.TextHeld.{HoldsText, KeepsText, room_for, text_fit};
    ghost use Rattle.textoutlet.specs.TextLaws.{text_laws};

    ghost means = { HoldsText };

    ghost fitting = { λ o. text_fit (size o.text) };

    ghost has_room = { room_for };

    ghost keeps = { KeepsText };

    ghost laws = { text_laws };

    #[tactic(auto, using(crate::proofs::Held::fit_is))]
    fn has_room(&self, kind: Kind, lits: &[i32]) -> bool {
        self.counts.line(kind, lits).fits(self.text.spare_len())
    }

    fn append(&mut self, kind: Kind, lits: &[i32]) {
        put_next(&mut self.text, self.counts, kind, lits);
        self.counts.add(kind);
    }
}
