// Rules, read from word to word.
ghost use Rattle.std.specs.Prelude.{◌≡◌, ℕ, ◌+◌, ◌-◌, ◌^◌, ◌<◌, ◌≤◌, List, length, ℤ, IfSome, IfOk, codes, MatchResult};
ghost use Rattle.reader.specs.Left.{left};
ghost use Rattle.reader.specs.Numerals.{signed_numeral};
ghost use Rattle.reader.specs.Reading.{literal_says};
ghost use Rattle.std.specs.Str.{bytes_eq};
ghost use Rattle.reader.specs.Marks.{Marked, said_by, grown};
ghost use Rattle.reader.specs.Turns.{LiteralsRead, RuleRead};

use crate::marks::Marks;
use crate::numerals::signed_number;
use crate::parts::{Header, Shape};
use crate::words::{Reader, Word};
use rules::{Fault, Kind, Reason};

pub fn is_odd(word: &[u8]) -> bool
    ensures { result ≡ bytes_eq word.now (codes "odd") }
{
    matches!(word, b"odd")
}

// The literal that a word inside a rule writes, or none where it ends the rule.
fn literal(word: Word, header: Header, marks: &mut Marks) -> Result<Option<i32>, Fault>
    ensures says { (ls : List ℤ) → Marked marks.old.stamps marks.old.top ls → said_by result ≡ literal_says header.variables ls (signed_numeral word.entry.bytes.now) }
    ensures marked { (ls : List ℤ) → Marked marks.old.stamps marks.old.top ls → MatchResult result (λ o. Marked marks.new.stamps marks.new.top (grown ls o)) (λ f. f.place ≡ word.entry.place) }
    ensures top { marks.new.top ≡ marks.old.top }
{
    let place = word.place;
    let Some(z) = signed_number(word.bytes) else {
        return Err(Reason::Form.at(place));
    };
    let variable = z.unsigned_abs() as usize;
    if variable == 0 {
        return Ok(None);
    }
    if variable > header.variables {
        return Err(Reason::Variable.at(place));
    }
    if marks.mark(variable - 1) {
        return Err(Reason::Repeated.at(place));
    }
    Ok(Some(z))
}

impl<'a> Reader<'a> {
    // Reads literals up to the 0 that ends the rule, and counts them.
    fn literals(&mut self, header: Header, marks: &mut Marks) -> Result<usize, Fault>
        ensures text { self.new.text ≡ self.old.text }
        ensures on { IfOk result (λ count. self.old.at + count + 1 ≤ self.new.at) }
        ensures top { marks.new.top ≡ marks.old.top }
        ensures read { (ls : List ℤ) → Marked marks.old.stamps marks.old.top ls → LiteralsRead header.variables (length self.old.text.now) ls (left self.old) (left self.new) result }
    {
        let mut count = 0;
        while let Some(word) = self.next_word() {
            match literal(word, header, marks)? {
                Some(_) => count += 1,
                None => return Ok(count),
            }
        }
        Err(Reason::Unended.at(self.text.len()))
    }

    // Reads one rule; none at the end of the text.
    pub fn rule(&mut self, header: Header, marks: &mut Marks) -> Result<Option<Shape>, Fault>
        requires { marks.old.top < 2 ^ 64 - 1 }
        ensures text { self.new.text ≡ self.old.text }
        ensures on { IfOk result (λ o. IfSome o (λ s. self.old.at + s.literals + 1 ≤ self.new.at)) }
        ensures top { marks.new.top ≡ marks.old.top + 1 }
        ensures read { RuleRead header.variables (length self.old.text.now) (left self.old) (left self.new) result }
    {
        marks.begin();
        let Some(first) = self.next_word() else {
            return Ok(None);
        };
        if is_odd(first.bytes) {
            let literals = self.literals(header, marks)?;
            return Ok(Some(Shape {
                kind: Kind::Odd,
                literals,
            }));
        }
        let kind = Kind::Clause;
        let Some(_) = literal(first, header, marks)? else {
            return Ok(Some(Shape { kind, literals: 0 }));
        };
        let more = self.literals(header, marks)?;
        Ok(Some(Shape {
            kind,
            literals: more + 1,
        }))
    }
}
