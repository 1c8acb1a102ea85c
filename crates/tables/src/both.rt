// The two tables of a rule file, one of clauses and one of odd rules.
ghost use Rattle.std.specs.Prelude.{◌≡◌, List};
ghost use Rattle.std.proofs.Math.Option.{none};
ghost use Rattle.rules.specs.Rules.{Rule};
ghost use Rattle.stores.specs.Numbers.{fault_of};
ghost use Rattle.stores.specs.Joins.{joins, join_fault};
ghost use Rattle.meaning.specs.Tables.{open_fault};
ghost use Rattle.meaning.specs.Spelt.{Filled, MeansRules, together_fault, both_fault};
ghost use Rattle.rules.specs.declared.kind.Kind.TheVariants.{Clause, Odd};
ghost use Rattle.tables.specs.Laws.{table_store};

use crate::opening::count_rules;
use crate::table::Table;
use rules::{Fault, Kind, Reason};

#[derive(Clone, Copy)]
pub struct Tables<'a> {
    pub clauses: Table<'a>,
    pub odds: Table<'a>,
}

// Refuses two tables with too many rules together.
fn check_together(clauses: &[i32], odds: &[i32]) -> Result<(), Fault>
    ensures { fault_of result ≡ together_fault clauses.now odds.now }
{
    let all = count_rules(clauses).saturating_add(count_rules(odds));
    if all > 16384 {
        return Err(Fault {
            reason: Reason::Limits,
            place: 0,
        });
    }
    Ok(())
}

// Each table as a store of its kind.
fn opened<'a>(clauses: &'a [i32], odds: &'a [i32], vars: usize) -> Tables<'a>
    requires { (open_fault vars clauses.now ≡ none) × (open_fault vars odds.now ≡ none) }
    ensures first { (result.clauses.kind ≡ Clause) × ((result.clauses.table ≡ clauses.entry) × (result.clauses.vars ≡ vars)) }
    ensures second { (result.odds.kind ≡ Odd) × ((result.odds.table ≡ odds.entry) × (result.odds.vars ≡ vars)) }
{
    Tables {
        clauses: Table::open(Kind::Clause, clauses, vars),
        odds: Table::open(Kind::Odd, odds, vars),
    }
}

impl<'a> Tables<'a> {
    // Refuses two tables that are not one of clauses and one of odd rules over so many variables. Those that a
    // reader fills are never refused.
    pub fn check(clauses: &[i32], odds: &[i32], vars: usize) -> Result<(), Fault>
        ensures value { fault_of result ≡ both_fault vars clauses.now odds.now }
        ensures filled { (rs : List Rule) → Filled vars rs clauses.now odds.now → fault_of result ≡ none }
    {
        Table::check(clauses, vars)?;
        Table::check(odds, vars)?;
        check_together(clauses, odds)
    }

    // The two as stores, once they have been checked. Joined they mean the rules that a reader filled them with.
    pub fn open(clauses: &'a [i32], odds: &'a [i32], vars: usize) -> Tables<'a>
        requires { both_fault vars clauses.now odds.now ≡ none }
        ensures first { (result.clauses.kind ≡ Clause) × ((result.clauses.table ≡ clauses.entry) × (result.clauses.vars ≡ vars)) }
        ensures second { (result.odds.kind ≡ Odd) × ((result.odds.table ≡ odds.entry) × (result.odds.vars ≡ vars)) }
        ensures joined { join_fault (table_store result.clauses) (table_store result.odds) ≡ none }
        ensures means { (rs : List Rule) → Filled vars rs clauses.now odds.now → MeansRules (joins (table_store result.clauses) (table_store result.odds)) vars rs }
    {
        opened(clauses, odds, vars)
    }
}
