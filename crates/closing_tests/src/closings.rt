// What a closing ends with, and the partial that it leaves.
use closing::{Clash, try_close};
use std::process::Abort;
use std::test::Fail;
use stores::{ByLook, Joined, Refusal, Rules};
use tables::Tables;

// A partial of four variables, how its closing ends, and what is left.
type Row = ([u8; 4], Result<Result<(), Clash>, Refusal>, [u8; 4]);

// How the closing of a partial ends, and what is left.
fn closed<S: Rules>(store: &S, before: [u8; 4]) -> (Result<Result<(), Clash>, Refusal>, [u8; 4]) {
    let mut partial = before;
    let ends = try_close(store, &mut partial);
    (ends, partial)
}

fn hold<S: Rules>(rt: &impl Abort, store: &S, rows: &[Row]) -> Result<(), Fail> {
    for (before, ends, after) in rows {
        assert_eq!(rt; closed(store, *before), (*ends, *after));
    }
    Ok(())
}

// The same by looks alone.
fn hold_by_look<S: Rules>(rt: &impl Abort, store: &S, rows: &[Row]) -> Result<(), Fail> {
    let slow = ByLook { store };
    hold(rt, &slow, rows)
}

// Bytes of another length are refused, and left as they are.
fn refuses<S: Rules>(rt: &impl Abort, store: &S) -> Result<(), Fail> {
    let mut short = [1u8, 0, 0];
    assert_eq!(rt; try_close(store, &mut short), Err(Refusal::Unfit));
    assert_eq!(rt; short, [1, 0, 0]);
    let mut long = [1u8, 0, 0, 0, 0];
    assert_eq!(rt; try_close(store, &mut long), Err(Refusal::Unfit));
    assert_eq!(rt; long, [1, 0, 0, 0, 0]);
    Ok(())
}

// rules 1 to 3: 1 implies 2, 2 implies not 3, 4 or 3 or -2; rule 4: an odd number of 1, 3 and 4
const CLAUSES: [i32; 10] = [-1, 2, 0, -2, -3, 0, 4, 3, -2, 0];

const ODDS: [i32; 4] = [1, 3, 4, 0];

const JOINED: [Row; 8] = [
    // nothing is forced
    ([0, 0, 0, 0], Ok(Ok(())), [0, 0, 0, 0]),
    // 2, -3 and 4 one after another, and then the odd rule is broken
    ([1, 0, 0, 0], Ok(Err(Clash)), [1, 1, 2, 1]),
    // -3, 4 and then -1 by the odd rule
    ([0, 1, 0, 0], Ok(Ok(())), [2, 1, 2, 1]),
    // -2, then -1 by rule 1, then -4 by the odd rule
    ([0, 0, 1, 0], Ok(Ok(())), [2, 2, 1, 2]),
    // broken at once: nothing is set
    ([1, 2, 0, 0], Ok(Err(Clash)), [1, 2, 0, 0]),
    // closing a closed partial changes nothing
    ([2, 2, 1, 2], Ok(Ok(())), [2, 2, 1, 2]),
    // a byte above 2 is refused
    ([3, 0, 0, 0], Err(Refusal::Unfit), [3, 0, 0, 0]),
    ([1, 0, 0, 255], Err(Refusal::Unfit), [1, 0, 0, 255]),
];

#[test]
fn closings(rt: HostRuntime) -> Result<(), Fail> {
    if Tables::check(&CLAUSES, &ODDS, 4).is_err() {
        return Err(Fail::new("the tables are refused"));
    }
    let tables = Tables::open(&CLAUSES, &ODDS, 4);
    let store = Joined::join(&tables.clauses, &tables.odds);
    hold(&rt, &store, &JOINED)?;
    hold_by_look(&rt, &store, &JOINED)?;
    refuses(&rt, &store)
}

// rule 1: 3 or -2; rule 2: 4 or -1; rule 3: 2; rule 4: -4 or -3
const ORDERED: [i32; 11] = [3, -2, 0, 4, -1, 0, 2, 0, -4, -3, 0];

// A literal that a later rule forces can make a lower one force, which then comes first.
const LOWEST_FIRST: [Row; 3] = [
    // 2, then 3 by rule 1, then -4, then -1 by rule 2
    ([0, 0, 0, 0], Ok(Ok(())), [2, 1, 1, 2]),
    // 4 by rule 2, 2 by rule 3, 3 by rule 1, and rule 4 is broken
    ([1, 0, 0, 0], Ok(Err(Clash)), [1, 1, 1, 1]),
    // rule 2 forces 4 before rule 3 is seen to be broken
    ([1, 2, 0, 0], Ok(Err(Clash)), [1, 2, 0, 1]),
];

#[test]
fn lowest_first(rt: HostRuntime) -> Result<(), Fail> {
    if Tables::check(&ORDERED, &[], 4).is_err() {
        return Err(Fail::new("the table is refused"));
    }
    let tables = Tables::open(&ORDERED, &[], 4);
    hold(&rt, &tables.clauses, &LOWEST_FIRST)?;
    hold_by_look(&rt, &tables.clauses, &LOWEST_FIRST)
}
