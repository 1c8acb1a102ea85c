// The lowest rule that is not settled: the tables' own walk, that of a join, and the one from looks alone.
use std::process::Abort;
use std::test::Fail;
use stores::{ByLook, Joined, Rules, is_partial};
use tables::Tables;

// What the walk answers; none where the bytes are no partial.
fn unsettled<S: Rules>(store: &S, partial: &[u8]) -> Option<Option<usize>> {
    if is_partial(partial, store.variables()) {
        Some(store.unsettled(partial))
    } else {
        None
    }
}

// A partial of three variables, and what the walk answers.
type Row = ([u8; 3], Option<usize>);

fn hold<S: Rules>(rt: &impl Abort, store: &S, rows: &[Row]) {
    let slow = ByLook { store };
    for (partial, rule) in rows {
        assert_eq!(rt; unsettled(store, partial), Some(*rule));
        assert_eq!(rt; unsettled(&slow, partial), Some(*rule));
    }
    assert_eq!(rt; unsettled(store, &[0, 0]), None);
}

// as clauses: 1 or 2, and -3 or 1
const CLAUSES: [i32; 6] = [1, 2, 0, -3, 1, 0];

const CLAUSE_ROWS: [Row; 6] = [
    ([0, 0, 0], Some(1)),
    ([0, 1, 0], Some(2)),
    ([2, 1, 0], Some(2)),
    ([2, 1, 1], Some(2)),
    ([2, 2, 1], Some(1)),
    ([1, 0, 0], None),
];

// as odd rules: 1 and 2 and 3, and -3
const ODDS: [i32; 6] = [1, 2, 3, 0, -3, 0];

const ODD_ROWS: [Row; 5] = [
    ([0, 0, 2], Some(1)),
    ([1, 1, 2], Some(1)),
    ([1, 1, 0], Some(1)),
    ([1, 1, 1], Some(2)),
    ([1, 2, 2], None),
];

const BOTH_ROWS: [Row; 6] = [
    ([0, 0, 2], Some(1)),
    ([0, 1, 0], Some(2)),
    ([1, 0, 0], Some(3)),
    ([1, 1, 2], Some(3)),
    ([1, 1, 1], Some(4)),
    ([1, 2, 2], None),
];

#[test]
fn lowest_unsettled(rt: HostRuntime) -> Result<(), Fail> {
    if Tables::check(&CLAUSES, &ODDS, 3).is_err() {
        return Err(Fail::new("refused"));
    }
    let tables = Tables::open(&CLAUSES, &ODDS, 3);
    hold(&rt, &tables.clauses, &CLAUSE_ROWS);
    hold(&rt, &tables.odds, &ODD_ROWS);
    hold(
        &rt,
        &Joined::join(&tables.clauses, &tables.odds),
        &BOTH_ROWS,
    );
    Ok(())
}

#[test]
fn no_rules(rt: HostRuntime) -> Result<(), Fail> {
    if Tables::check(&[], &[], 3).is_err() {
        return Err(Fail::new("refused"));
    }
    let tables = Tables::open(&[], &[], 3);
    let store = Joined::join(&tables.clauses, &tables.odds);
    hold(&rt, &store, &[([0, 0, 0], None), ([1, 2, 1], None)]);
    Ok(())
}
