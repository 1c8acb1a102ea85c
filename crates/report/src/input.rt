// An input: a line with the depth, and then a rule file.
ghost use Rattle.std.specs.Prelude.{◌≡◌, IfOk, string_bytes};
ghost use Rattle.report.specs.Report.{depth_in, text_line, report_of};

use crate::counts::counted;
use crate::lines::{accepted, refused};
use question::{open, read};
use reader::{first_line, number};
use rules::Reason;
use std::alloc::{AllocError, Global};

// How many numbers each of the two tables has room for.
const TABLE: usize = 16_384;

// The depth that a line `depth,D` says, at most 2,048.
fn depth(line: &[u8]) -> Option<u32>
    ensures { result ≡ depth_in line.now }
{
    let digits = line.strip_prefix(b"depth,")?;
    number(digits).filter(|depth| *depth <= 2048)
}

// What is written for a rule file.
fn text_report(heap: Global, text: &[u8]) -> Result<String, AllocError>
    ensures { IfOk result (λ s. string_bytes s ≡ text_line text.now) }
{
    let mut clauses = [0; TABLE];
    let mut odds = [0; TABLE];
    match read(text, &mut clauses, &mut odds) {
        Ok(counts) => {
            let tables = open(counts, &clauses, &odds);
            accepted(heap, counted(&tables.clauses, &tables.odds))
        }
        Err(fault) => refused(heap, fault),
    }
}

// What is written for an input.
pub fn report(heap: Global, input: &[u8]) -> Result<String, AllocError>
    ensures { IfOk result (λ s. string_bytes s ≡ report_of input.now) }
{
    let unfit = Reason::Input.at(0);
    if input.len() > 65_536 {
        return refused(heap, unfit);
    }
    let (line, text) = first_line(input);
    let Some(_depth) = depth(line) else {
        return refused(heap, unfit);
    };
    text_report(heap, text)
}
