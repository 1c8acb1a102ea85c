// Entries as signed numbers in lent memory: kind, count, literals.
ghost use Rattle.std.specs.Prelude.{◌≡◌, ◌+◌, ◌≤◌, List, [], length};
ghost use Rattle.stack.specs.Items.{items, spares, size, sound};
ghost use Rattle.outlet.specs.Entries.{Entry, entry_of};
ghost use Rattle.outlet.specs.Memory.{Appended};

use crate::kinds::{Kind, Refusal};
use crate::{Append, Outlet, put_if_room};
use stack::Stack;

#[derive(Drop)]
pub struct NumberOutlet<'a> {
    numbers: Stack<'a, i32>,
    ghost whole: { sound numbers },
}

impl<'a> NumberOutlet<'a> {
    ghost use Rattle.outlet.specs.Numbers.{numbers as numbers_of, entry_numbers, HoldsNumbers};

    // An empty outlet over all of the memory, which is not written.
    pub fn new(cells: &'a mut [i32]) -> NumberOutlet<'a>
        ensures means { HoldsNumbers result [] }
        ensures memory { (result.numbers.len ≡ 0) × (result.numbers.cells.now ≡ cells.old) }
        ensures same { result.numbers.cells.ghost_name ≡ cells.entry.ghost_name }
    {
        NumberOutlet {
            numbers: Stack::new(cells),
        }
    }

    // The written part.
    pub fn as_slice(&self) -> &[i32]
        ensures value { result.now ≡ items self.now.numbers }
        ensures means { (es : List Entry) → HoldsNumbers self.now es → result.now ≡ numbers_of es }
    {
        self.numbers.as_slice()
    }

    // Writes an entry for which there is room.
    fn write_entry(out: &mut Stack<i32>, kind: Kind, lits: &[i32])
        requires few { length lits.now ≤ 2048 }
        requires room { 2 + length lits.now ≤ length (spares out.old) }
        ensures { Appended out.old (entry_numbers (entry_of kind lits.now)) out.new }
    {
        out.extend_from_slice(&[kind as i32, lits.len() as i32]);
        out.extend_from_slice(lits);
    }
}

impl<'a> Outlet for NumberOutlet<'a> {
    ghost use Rattle.outlet.specs.Numbers.{numbers_fit, HoldsNumbers, KeepsNumbers};
    ghost use Rattle.outlet.specs.NumberLaws.{number_laws};

    ghost means = { HoldsNumbers };

    ghost fitting = { λ o. numbers_fit (size o.numbers) };

    ghost keeps = { KeepsNumbers };

    ghost laws = { number_laws };

    fn fits(&self, kind: Kind, lits: &[i32]) -> bool {
        self.has_room(kind, lits)
    }

    fn put(&mut self, kind: Kind, lits: &[i32]) -> Result<(), Refusal> {
        put_if_room(self, kind, lits)
    }
}

impl<'a> Append for NumberOutlet<'a> {
    ghost use Rattle.outlet.specs.Numbers.{room_for, numbers_fit, HoldsNumbers, KeepsNumbers};
    ghost use Rattle.outlet.specs.NumberLaws.{number_laws};

    ghost means = { HoldsNumbers };

    ghost fitting = { λ o. numbers_fit (size o.numbers) };

    ghost has_room = { λ o _ ls. room_for (size o.numbers) o.numbers.len (length ls) };

    ghost keeps = { KeepsNumbers };

    ghost laws = { number_laws };

    fn has_room(&self, _kind: Kind, lits: &[i32]) -> bool {
        lits.len() <= 2048 && self.numbers.spare_len() >= 2 + lits.len()
    }

    fn append(&mut self, kind: Kind, lits: &[i32]) {
        NumberOutlet::write_entry(&mut self.numbers, kind, lits);
    }
}
