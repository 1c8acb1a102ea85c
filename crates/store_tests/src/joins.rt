// Looks at two tables joined, and at a join of a join and a table.
use crate::rows::{Row, hold, refuses, reply};
use rules::Kind;
use std::process::Abort;
use std::test::Fail;
use stores::{Joined, Look, Refusal, Rules};
use tables::{Table, Tables};

// rule 1 is 1 or 2, rule 2 is -3, and rule 3 is odd
const CLAUSES: [i32; 5] = [1, 2, 0, -3, 0];

const ODDS: [i32; 4] = [1, 2, 3, 0];

#[test]
fn looks(rt: HostRuntime) -> Result<(), Fail> {
    if Tables::check(&CLAUSES, &ODDS, 3).is_err() {
        return Err(Fail::new("the tables are refused"));
    }
    let tables = Tables::open(&CLAUSES, &ODDS, 3);
    let store = Joined::join(&tables.clauses, &tables.odds);
    let rows: [Row; 9] = [
        (1, [0, 0, 0], Ok(Look::Open(2))),
        (2, [0, 0, 0], Ok(Look::Forces(-3))),
        (2, [0, 0, 1], Ok(Look::Broken)),
        (3, [0, 0, 0], Ok(Look::Open(3))),
        (3, [1, 0, 2], Ok(Look::Forces(-2))),
        (3, [1, 1, 1], Ok(Look::Settled)),
        (0, [0, 0, 0], Err(Refusal::Unfit)),
        (4, [0, 0, 0], Err(Refusal::Unfit)),
        (3, [0, 0, 3], Err(Refusal::Unfit)),
    ];
    hold(&rt, &store, &rows);
    refuses(&rt, &store, 1, &[0, 0]);
    refuses(&rt, &store, 3, &[0, 0, 0, 0]);
    Ok(())
}

// A store joined with an odd table that is made here: the reply, and the looks if it is none.
fn with_table<F: Rules>(
    rt: &impl Abort,
    store: &F,
    table: &[i32],
    vars: usize,
    rows: &[Row],
) -> Result<(u32, usize), Fail> {
    if Table::check(table, vars).is_err() {
        return Err(Fail::new("the table is refused"));
    }
    let last = Table::open(Kind::Odd, table, vars);
    if Joined::check(store, &last).is_err() {
        return Ok(reply(Joined::check(store, &last)));
    }
    let deep = Joined::join(store, &last);
    hold(rt, &deep, rows);
    Ok((0, deep.rules()))
}

#[test]
fn nested(rt: HostRuntime) -> Result<(), Fail> {
    if Tables::check(&CLAUSES, &ODDS, 3).is_err() {
        return Err(Fail::new("the tables are refused"));
    }
    let tables = Tables::open(&CLAUSES, &ODDS, 3);
    let both = Joined::join(&tables.clauses, &tables.odds);
    let rows: [Row; 4] = [
        (3, [1, 0, 2], Ok(Look::Forces(-2))),
        (4, [1, 0, 2], Ok(Look::Broken)),
        (16384, [0, 0, 0], Ok(Look::Broken)),
        (16385, [0, 0, 0], Err(Refusal::Unfit)),
    ];
    assert_eq!(rt; with_table(&rt, &both, &[0; 16381], 3, &rows)?, (0, 16384));
    assert_eq!(rt; with_table(&rt, &both, &[0; 16382], 3, &[])?, (19, 0));
    assert_eq!(rt; with_table(&rt, &both, &[1, 0], 4, &[])?, (19, 0));
    Ok(())
}
