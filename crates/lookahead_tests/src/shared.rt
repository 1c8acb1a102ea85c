// What both sides of a variable share can clash over a store that says less of a partial than of one that it extends.
use crate::contrary::Contrary;
use crate::rows::{Row, hold_row};
use cutoff::{Cutoff, Kind};
use lookahead::Outcome;
use std::test::Fail;

const ROWS: [Row; 3] = [
    // both sides of 1 force 2 and close; with 2 alone set the rule is broken
    Row {
        cutoff: Cutoff::Never,
        decisions: 0,
        before: [0, 0, 0, 0, 0, 0, 0],
        outcome: Outcome::Refuted,
        after: None,
        kept: (Kind::Never, 0),
    },
    // the cutoff rises and falls once, as at every refuted node
    Row {
        cutoff: Cutoff::Easing(2.5),
        decisions: 21,
        before: [0, 0, 0, 0, 0, 0, 0],
        outcome: Outcome::Refuted,
        after: None,
        kept: (Kind::Easing, 0x3ffd666666666666),
    },
    // with 1 set it forces 2, and then both sides of 3 clash
    Row {
        cutoff: Cutoff::Never,
        decisions: 1,
        before: [1, 0, 0, 0, 0, 0, 0],
        outcome: Outcome::Refuted,
        after: None,
        kept: (Kind::Never, 0),
    },
];

#[test]
fn what_is_shared_clashes(rt: HostRuntime) -> Result<(), Fail> {
    let store = Contrary {};
    for row in &ROWS {
        hold_row(&rt, &store, row)?;
    }
    Ok(())
}
