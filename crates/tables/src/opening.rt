// Opening a table: a check that may refuse, then a making that cannot.
ghost use Rattle.std.specs.Prelude.{◌≡◌};
ghost use Rattle.std.proofs.Math.Option.{none};
ghost use Rattle.stores.specs.Numbers.{fault_of};
ghost use Rattle.meaning.specs.Tables.{ends, has_var, beyond, rule_fault, open_fault, OpensRules, FaultsMean};

use crate::table::Table;
use rules::{Fault, Kind, Reason};

// Whether a literal of the same variable is among these.
fn has_var(literals: &[i32], literal: i32) -> bool
    ensures { result ≡ has_var literals.now literal }
{
    let v = literal.unsigned_abs();
    for y in literals {
        if y.unsigned_abs() == v {
            return true;
        }
    }
    false
}

// How many rules a table ends.
pub fn count_rules(table: &[i32]) -> usize
    ensures { result ≡ ends table.now }
{
    let mut rules: usize = 0;
    for z in table {
        if *z == 0 {
            rules += 1;
        }
    }
    rules
}

// Refuses a table at its first fault within a rule, or at its end.
fn check_rules(table: &[i32], vars: usize) -> Result<(), Fault>
    ensures { fault_of result ≡ rule_fault vars table.now }
{
    let mut start = 0;
    for i in 0..table.len() {
        let z = table[i];
        if z == 0 {
            start = i + 1;
        } else {
            if z.unsigned_abs() as usize > vars {
                return Err(Fault {
                    reason: Reason::Variable,
                    place: i,
                });
            }
            if has_var(&table[start..i], z) {
                return Err(Fault {
                    reason: Reason::Repeated,
                    place: i,
                });
            }
        }
    }
    if start < table.len() {
        return Err(Fault {
            reason: Reason::Unended,
            place: table.len(),
        });
    }
    Ok(())
}

// Whether a table has too many variables or rules.
fn beyond_limits(table: &[i32], vars: usize) -> bool
    ensures { result ≡ beyond vars table.now }
{
    vars > 2048 || count_rules(table) > 16384
}

impl<'a> Table<'a> {
    // Refuses a table that is not one of rules over so many variables.
    pub fn check(table: &[i32], vars: usize) -> Result<(), Fault>
        ensures value { fault_of result ≡ open_fault vars table.now }
        ensures rules { OpensRules vars table.now }
        ensures faults { FaultsMean vars table.now }
    {
        if beyond_limits(table, vars) {
            return Err(Fault {
                reason: Reason::Limits,
                place: 0,
            });
        }
        check_rules(table, vars)
    }

    // The rules of a table that has been checked.
    pub fn open(kind: Kind, table: &'a [i32], vars: usize) -> Table<'a>
        requires { open_fault vars table.now ≡ none }
        ensures { (result.kind ≡ kind) × ((result.table ≡ table.entry) × (result.vars ≡ vars)) }
    {
        Table {
            kind,
            table,
            vars,
            rules: count_rules(table),
        }
    }
}
