//! Closes a chain of 2,000 variables twenty times over a joined store, one walk for each literal; bench/ has its twin.
#![tactic(auto)]

use std::io;
use stores::{Find, Joined, Rules, is_partial};
use tables::Tables;

const VARIABLES: usize = 2000;

// Clause v is -v or v + 1.
fn build(table: &mut [i32]) {
    for i in 0..table.len() {
        let v = (i / 3 % 2000) as i32 + 1;
        table[i] = match i % 3 {
            0 => v.saturating_neg(),
            1 => v + 1,
            _ => 0,
        };
    }
}

// Makes a literal true, if its variable is there.
fn set(partial: &mut [u8], literal: i32) -> bool {
    let v = literal.unsigned_abs() as usize;
    if v < 1 || v > partial.len() {
        return false;
    }
    partial[v - 1] = if literal > 0 { 1 } else { 2 };
    true
}

// Sets what the lowest rule forces; whether there was one.
fn round<S: Rules>(store: &S, partial: &mut [u8]) -> bool {
    if !is_partial(partial, store.variables()) {
        return false;
    }
    match store.lowest(partial) {
        Some(Find::Force(literal)) => set(partial, literal),
        Some(Find::Clash) | None => false,
    }
}

// How many literals follow from what is set.
fn close<S: Rules>(store: &S, partial: &mut [u8]) -> u32 {
    let mut steps: u32 = 0;
    for _ in 0..VARIABLES {
        if !round(store, partial) {
            break;
        }
        steps = steps.saturating_add(1);
    }
    steps
}

// The same from the first variable alone.
fn close_first<S: Rules>(store: &S) -> u32 {
    let mut partial = [0u8; VARIABLES];
    partial[0] = 1;
    close(store, &mut partial)
}

fn main(rt: HostRuntime) -> io::Result<()> {
    let mut clauses = [0i32; 5997];
    build(&mut clauses);
    let odds = [1, 2, 2000, 0];
    if Tables::check(&clauses, &odds, VARIABLES).is_err() {
        return println!(rt; "refused");
    }
    let tables = Tables::open(&clauses, &odds, VARIABLES);
    let store = Joined::join(&tables.clauses, &tables.odds);
    let mut all: u32 = 0;
    for _ in 0..20 {
        all = all.saturating_add(close_first(&store));
    }
    println!(rt; "{all}")
}
