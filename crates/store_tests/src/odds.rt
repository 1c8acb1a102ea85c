// Looks at an odd table.
use crate::rows::{Row, hold_table};
use rules::Kind;
use std::test::Fail;
use stores::{Look, Refusal};

// rule 1 is 1 and -2 and 3, rule 2 has no literal, rule 3 is -3
const TABLE: [i32; 7] = [1, -2, 3, 0, 0, -3, 0];

#[test]
fn looks(rt: HostRuntime) -> Result<(), Fail> {
    let rows: [Row; 13] = [
        (1, [0, 0, 0], Ok(Look::Open(3))),
        (1, [1, 0, 0], Ok(Look::Open(2))),
        (1, [1, 0, 2], Ok(Look::Forces(2))),
        (1, [2, 0, 2], Ok(Look::Forces(-2))),
        (1, [1, 2, 0], Ok(Look::Forces(3))),
        (1, [1, 1, 0], Ok(Look::Forces(-3))),
        (1, [1, 2, 1], Ok(Look::Settled)),
        (1, [1, 1, 2], Ok(Look::Settled)),
        (1, [2, 1, 2], Ok(Look::Broken)),
        (1, [1, 2, 2], Ok(Look::Broken)),
        (2, [0, 0, 0], Ok(Look::Broken)),
        (3, [0, 0, 0], Ok(Look::Forces(-3))),
        (3, [0, 0, 2], Ok(Look::Settled)),
    ];
    hold_table(&rt, Kind::Odd, &TABLE, 3, &rows)
}

#[test]
fn refusals(rt: HostRuntime) -> Result<(), Fail> {
    let rows: [Row; 3] = [
        (0, [0, 0, 0], Err(Refusal::Unfit)),
        (4, [0, 0, 0], Err(Refusal::Unfit)),
        (3, [3, 0, 0], Err(Refusal::Unfit)),
    ];
    hold_table(&rt, Kind::Odd, &TABLE, 3, &rows)
}
