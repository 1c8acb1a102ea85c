// What opening a table refuses, as number and index, and tables with next to nothing in them.
use crate::rows::reply;
use rules::Kind;
use stores::{Look, Refusal, Rules};
use tables::{Table, Tables};

fn table_reply(table: &[i32], vars: usize) -> (u32, usize) {
    reply(Table::check(table, vars))
}

fn tables_reply(clauses: &[i32], odds: &[i32], vars: usize) -> (u32, usize) {
    reply(Tables::check(clauses, odds, vars))
}

#[test]
fn faults(rt: HostRuntime) {
    let replies = [
        table_reply(&[1, -2, 0, 2, 0], 2),
        table_reply(&[9], 2049),
        table_reply(&[1, 0, -3, 0], 2),
        table_reply(&[1, 2147483647, 0], 2),
        table_reply(&[1, -2147483648, 0], 2),
        table_reply(&[1, 0], 0),
        table_reply(&[2, 0, 1, -1, 0], 2),
        table_reply(&[2, 3, 2, 0], 2),
        table_reply(&[1, 0, 2], 2),
        table_reply(&[1, 1], 2),
    ];
    assert_eq!(rt;
        replies,
        [
            (0, 0),
            (19, 0),
            (13, 2),
            (13, 1),
            (13, 1),
            (13, 0),
            (14, 3),
            (13, 1),
            (15, 3),
            (14, 1),
        ]
    );
}

#[test]
fn counts(rt: HostRuntime) {
    let one = [
        table_reply(&[], 2048),
        table_reply(&[], 2049),
        table_reply(&[0; 16384], 1),
        table_reply(&[0; 16385], 1),
    ];
    assert_eq!(rt; one, [(0, 0), (19, 0), (0, 0), (19, 0)]);
    let two = [
        tables_reply(&[0; 16384], &[], 1),
        tables_reply(&[0; 16384], &[0], 1),
        tables_reply(&[1, 0], &[1, 1, 0], 1),
        tables_reply(&[2], &[1, 1, 0], 1),
    ];
    assert_eq!(rt; two, [(0, 0), (19, 0), (14, 1), (13, 0)]);
}

// The number of rules of a table without variables, and the look at its last rule.
fn last_look(table: &[i32]) -> Option<(usize, Result<Look, Refusal>)> {
    if Table::check(table, 0).is_err() {
        return None;
    }
    let store = Table::open(Kind::Clause, table, 0);
    let m = store.rules();
    Some((m, store.look(m, &[])))
}

#[test]
fn no_variables(rt: HostRuntime) {
    assert_eq!(rt; last_look(&[0, 0]), Some((2, Ok(Look::Broken))));
    assert_eq!(rt; last_look(&[]), Some((0, Err(Refusal::Unfit))));
}
