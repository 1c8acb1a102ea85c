// The lines that are written.
ghost use Rattle.std.specs.Prelude.{◌≡◌, IfOk, string_bytes};
ghost use Rattle.report.specs.Report.{refused_line, read_line};

use crate::counts::Held;
use rules::Fault;
use std::alloc::{AllocError, Global};

// Stays: a Display for these two would write the same words in more lines.
pub fn refused(heap: Global, fault: Fault) -> Result<String, AllocError>
    ensures { IfOk result (λ s. string_bytes s ≡ refused_line fault) }
{
    let Fault { reason, place } = fault;
    let number = reason.number();
    format!(in heap; "refused,{number},{place}\n")
}

pub fn accepted(heap: Global, held: Held) -> Result<String, AllocError>
    ensures { IfOk result (λ s. string_bytes s ≡ read_line held.variables held.clauses held.odds) }
{
    let Held {
        variables,
        clauses,
        odds,
    } = held;
    format!(in heap; "read,{variables},{clauses},{odds}\n")
}
