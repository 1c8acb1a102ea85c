// A text read into two tables, and the tables opened as stores.
ghost use Rattle.std.specs.Prelude.{◌≡◌, ℕ, ◌≤◌, List, length, take, IfOk};
ghost use Rattle.std.proofs.Math.Option.{none};
ghost use Rattle.rules.specs.Rules.{clauses as clause_rules, odds as odd_rules};
ghost use Rattle.reader.specs.Reading.{parse, answer, filled};
ghost use Rattle.reader.specs.Theorem.{ReadAs};
ghost use Rattle.stores.specs.Joins.{joins, join_fault};
ghost use Rattle.tables.specs.Laws.{table_store};
ghost use Rattle.question.specs.Questions.{used_fault, ReadFrom, MeansText, CountedBy};

use reader::Counts;
use rules::Fault;
use tables::Tables;

// The reader's call, with what it means for opening.
fn read_tables(text: &[u8], clauses: &mut [i32], odds: &mut [i32]) -> Result<Counts, Fault>
    ensures answer { result ≡ answer (length text.now) (length clauses.old) (length odds.old) (parse text.now) }
    ensures clauses { clauses.new ≡ filled clause_rules (length clauses.old) (length odds.old) clauses.old (parse text.now) }
    ensures odds { odds.new ≡ filled odd_rules (length clauses.old) (length odds.old) odds.old (parse text.now) }
    ensures spelled { ReadAs text.now clauses.old clauses.new odds.old odds.new result }
    ensures from { IfOk result (λ k. ReadFrom text.now k clauses.new odds.new) }
    ensures opens { IfOk result (λ k. used_fault k clauses.new odds.new ≡ none) }
{
    reader::read(text, clauses, odds)
}

// Reads a text into the two tables, as the reader does. What it accepts opens without refusal.
pub fn read(text: &[u8], clauses: &mut [i32], odds: &mut [i32]) -> Result<Counts, Fault>
    ensures answer { result ≡ answer (length text.now) (length clauses.old) (length odds.old) (parse text.now) }
    ensures clauses { clauses.new ≡ filled clause_rules (length clauses.old) (length odds.old) clauses.old (parse text.now) }
    ensures odds { odds.new ≡ filled odd_rules (length clauses.old) (length odds.old) odds.old (parse text.now) }
    ensures spelled { ReadAs text.now clauses.old clauses.new odds.old odds.new result }
    ensures from { IfOk result (λ k. ReadFrom text.now k clauses.new odds.new) }
    ensures opens { IfOk result (λ k. used_fault k clauses.new odds.new ≡ none) }
{
    read_tables(text, clauses, odds)
}

// The used part of a table.
fn used<'a>(table: &'a [i32], count: usize) -> &'a [i32]
    requires { count ≤ length table.now }
    ensures { result.now ≡ take count table.now }
{
    &table[0..count]
}

// The tables of a text that was accepted, as two stores. Joined, they are satisfied by exactly the assignments that
// satisfy the rules that the text spells.
pub fn open<'a>(counts: Counts, clauses: &'a [i32], odds: &'a [i32]) -> Tables<'a>
    requires { used_fault counts clauses.now odds.now ≡ none }
    ensures joined { join_fault (table_store result.clauses) (table_store result.odds) ≡ none }
    ensures means { (text : List ℕ) → ReadFrom text counts clauses.now odds.now → MeansText text (joins (table_store result.clauses) (table_store result.odds)) }
    ensures counts { (text : List ℕ) → ReadFrom text counts clauses.now odds.now → CountedBy counts (table_store result.clauses) (table_store result.odds) }
{
    Tables::open(
        used(clauses, counts.clauses.numbers),
        used(odds, counts.odds.numbers),
        counts.variables,
    )
}
