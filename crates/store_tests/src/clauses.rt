// Looks at a clause table.
use crate::rows::{Row, hold_table};
use rules::Kind;
use std::test::Fail;
use stores::{Look, Refusal, Rules};
use tables::Table;

// rule 1 is 1 or -2 or 3, rule 2 is -3, rule 3 has no literal
const TABLE: [i32; 7] = [1, -2, 3, 0, -3, 0, 0];

#[test]
fn looks(rt: HostRuntime) -> Result<(), Fail> {
    let rows: [Row; 11] = [
        (1, [0, 0, 0], Ok(Look::Open(3))),
        (1, [1, 0, 0], Ok(Look::Settled)),
        (1, [0, 2, 0], Ok(Look::Settled)),
        (1, [0, 1, 0], Ok(Look::Open(2))),
        (1, [2, 0, 2], Ok(Look::Forces(-2))),
        (1, [2, 1, 0], Ok(Look::Forces(3))),
        (1, [2, 1, 2], Ok(Look::Broken)),
        (2, [0, 0, 0], Ok(Look::Forces(-3))),
        (2, [0, 0, 2], Ok(Look::Settled)),
        (2, [0, 0, 1], Ok(Look::Broken)),
        (3, [0, 0, 0], Ok(Look::Broken)),
    ];
    hold_table(&rt, Kind::Clause, &TABLE, 3, &rows)
}

#[test]
fn refusals(rt: HostRuntime) -> Result<(), Fail> {
    let rows: [Row; 4] = [
        (0, [0, 0, 0], Err(Refusal::Unfit)),
        (4, [0, 0, 0], Err(Refusal::Unfit)),
        (1, [0, 0, 3], Err(Refusal::Unfit)),
        (2, [255, 0, 0], Err(Refusal::Unfit)),
    ];
    hold_table(&rt, Kind::Clause, &TABLE, 3, &rows)?;
    assert_eq!(rt; Refusal::Unfit.number(), 18);
    Ok(())
}

// The literals of a rule in a table over three variables; none where it is refused.
fn handed(table: &[i32], rule: usize) -> Option<&[i32]> {
    if Table::check(table, 3).is_err() {
        return None;
    }
    Table::open(Kind::Clause, table, 3).rule(rule).ok()
}

#[test]
fn handed_out(rt: HostRuntime) -> Result<(), Fail> {
    assert!(rt; handed(&TABLE, 1).ok_or("rule 1")? == [1, -2, 3].as_slice());
    assert!(rt; handed(&TABLE, 2).ok_or("rule 2")? == [-3].as_slice());
    assert!(rt; handed(&TABLE, 3).ok_or("rule 3")?.is_empty());
    assert!(rt; handed(&TABLE, 0).is_none());
    assert!(rt; handed(&TABLE, 4).is_none());
    Ok(())
}
