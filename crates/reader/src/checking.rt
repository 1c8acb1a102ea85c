// A text is read once to see whether it is well formed, before anything is written.
ghost use Rattle.std.specs.Prelude.{◌≡◌, ◌+◌, ◌≤◌, length, IfOk};
ghost use Rattle.reader.specs.Left.{left};
ghost use Rattle.reader.specs.Turns.{HeaderRead, RulesRead, Checked};

use crate::counts::Counts;
use crate::header::{header as header_of, is_skipped};
use crate::marks::Marks;
use crate::parts::{Header, Plan};
use crate::words::Reader;
use rules::{Fault, Reason};

impl<'a> Reader<'a> {
    // Reads the first line that is neither blank nor a comment.
    fn header(&mut self) -> Result<Header, Fault>
        ensures text { self.new.text ≡ self.old.text }
        ensures read { HeaderRead self.old.text.now self.old.at (left self.new) result }
    {
        let end = self.text.len();
        while self.at < end {
            let place = self.at;
            let line = self.next_line();
            if !is_skipped(line) {
                return header_of(line, place);
            }
        }
        Err(Reason::Header.at(end))
    }

    // Reads all rules that are left, and counts them.
    fn rules(self, header: Header) -> Result<Counts, Fault>
        ensures few { IfOk result (λ c. c.clauses.rules + c.odds.rules ≤ length self.entry.text.now) }
        ensures read { RulesRead header.variables (length self.entry.text.now) (left self.entry) result }
    {
        let mut reader = self;
        let mut marks = Marks::new();
        let mut counts = Counts::none(header.variables);
        while let Some(rule) = reader.rule(header, &mut marks)? {
            counts = counts.with(rule);
        }
        Ok(counts)
    }
}

// Whether a text is well formed; nothing is written.
pub fn check<'a>(text: &'a [u8]) -> Result<Plan<'a>, Fault>
    ensures { Checked text.now result }
{
    let mut reader = Reader::new(text);
    let header = reader.header()?;
    let counts = reader.rules(header)?;
    if counts.clauses.rules + counts.odds.rules != header.rules {
        return Err(Reason::Count.at(text.len()));
    }
    Ok(Plan {
        counts,
        ahead: reader,
    })
}
