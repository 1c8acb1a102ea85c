// A rule file, read whole into two tables or refused.
ghost use Rattle.std.specs.Prelude.{◌≡◌, ◌≤◌, length};
ghost use Rattle.rules.specs.Rules.{clauses as clause_rules, odds as odd_rules};
ghost use Rattle.reader.specs.Reading.{parse, answer, filled};
ghost use Rattle.reader.specs.Theorem.{ReadAs};

use crate::checking::check;
use crate::counts::Counts;
use rules::{Fault, Reason};

// Reads a text. Where it is accepted, each table holds its rules from its start, and what lies beyond is as before;
// where it is refused, both tables are as before.
// Stays: a struct of two lent tables would be made for this one call, and be no shorter here.
#[tactic(auto, using(crate::proofs::Wholes::full_answer, crate::proofs::Formats::accepted))]
pub fn read(text: &[u8], clauses: &mut [i32], odds: &mut [i32]) -> Result<Counts, Fault>
    ensures answer { result ≡ answer (length text.now) (length clauses.old) (length odds.old) (parse text.now) }
    ensures clauses { clauses.new ≡ filled clause_rules (length clauses.old) (length odds.old) clauses.old (parse text.now) }
    ensures odds { odds.new ≡ filled odd_rules (length clauses.old) (length odds.old) odds.old (parse text.now) }
    ensures spelled { ReadAs text.now clauses.old clauses.new odds.old odds.new result }
{
    let plan = check(text)?;
    if !plan.counts.fit(clauses.len(), odds.len()) {
        return Err(Reason::Short.at(text.len()));
    }
    plan.ahead.fill(clauses, odds);
    Ok(plan.counts)
}
