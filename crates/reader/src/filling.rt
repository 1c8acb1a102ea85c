// The numbers of a text that was checked, written into the two tables.
ghost use Rattle.std.specs.Prelude.{◌≡◌, ◌≤◌, length};
ghost use Rattle.rules.specs.declared.kind.Kind.TheVariants.{Clause, Odd};
ghost use Rattle.reader.specs.Left.{left};
ghost use Rattle.reader.specs.Reading.{laid};
ghost use Rattle.reader.specs.Filling.{kind_after, sent_by};

use crate::numerals::signed_number;
use crate::scanning::is_odd;
use crate::words::Reader;
use rules::Kind;

// The kind of the rule that stands after this number, of a rule of this kind.
fn kind_after(kind: Kind, z: i32) -> Kind
    ensures { result ≡ kind_after kind z }
{
    if z == 0 { Kind::Clause } else { kind }
}

impl<'a> Reader<'a> {
    // Writes each rule that is left, its literals and its 0, into the table of its kind.
    pub fn fill(self, clauses: &mut [i32], odds: &mut [i32])
        requires clauses { length (sent_by Clause Clause (left self)) ≤ length clauses.old }
        requires odds { length (sent_by Odd Clause (left self)) ≤ length odds.old }
        ensures clauses { clauses.new ≡ laid (sent_by Clause Clause (left self.entry)) clauses.old }
        ensures odds { odds.new ≡ laid (sent_by Odd Clause (left self.entry)) odds.old }
    {
        let mut reader = self;
        let mut kind = Kind::Clause;
        // Stays: each word shows anew which table is next, so that each has a place of its own, and no loop goes over one.
        let mut c = 0;
        let mut o = 0;
        while let Some(word) = reader.next_word() {
            if is_odd(word.bytes) {
                kind = Kind::Odd;
                continue;
            }
            // Every other word is a number, since the text was checked.
            // Stays: the 0 is never taken, and a clause on all the words would be longer.
            let z = signed_number(word.bytes).unwrap_or(0);
            match kind {
                Kind::Clause => {
                    clauses[c] = z;
                    c += 1;
                }
                Kind::Odd => {
                    odds[o] = z;
                    o += 1;
                }
            }
            kind = kind_after(kind, z);
        }
    }
}
