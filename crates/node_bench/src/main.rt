//! Works the root node of one question twenty times: can two adders of 64 bits, built in two ways, differ in a sum bit?
//! bench/ has its twin.
#![tactic(auto)]

mod question;
mod root;

use crate::question::{VARIABLES, build};
use crate::root::repeat;
use std::io;
use stores::Joined;
use tables::Tables;

fn main(rt: HostRuntime) -> io::Result<()> {
    let Ok(question) = build(rt.alloc()) else {
        return println!(rt; "no memory");
    };
    let clauses = question.clauses.as_slice();
    let odds = question.odds.as_slice();
    if Tables::check(clauses, odds, VARIABLES).is_err() {
        return println!(rt; "refused");
    }
    let tables = Tables::open(clauses, odds, VARIABLES);
    let store = Joined::join(&tables.clauses, &tables.odds);
    let Some(found) = repeat(&store, 20) else {
        return println!(rt; "not decided");
    };
    println!(rt; "{},{},{}", found.literal, found.set, found.scores)
}
