// Walks over all rules: the tables' own, those of a join, and those from looks alone answer alike.
use std::test::Fail;
use stores::{ByLook, Find, Joined, Rules, is_partial};
use tables::Tables;

// What each walk answers under a partial, first of it and then beside another one.
fn walk<S: Rules>(store: &S, before: &[u8], side: &[u8]) -> Option<(Option<Find>, bool, u32)> {
    let n = store.variables();
    if !is_partial(before, n) || !is_partial(side, n) {
        return None;
    }
    Some((
        store.lowest(side),
        store.all_settled(side),
        store.gain(before, side),
    ))
}

// The same by looks alone.
fn walk_by_look<S: Rules>(
    store: &S,
    before: &[u8],
    side: &[u8],
) -> Option<(Option<Find>, bool, u32)> {
    let slow = ByLook { store };
    walk(&slow, before, side)
}

#[test]
fn walks(rt: HostRuntime) -> Result<(), Fail> {
    let clauses = [1, 2, 0, -3, 1, 0];
    let odds = [1, 2, 3, 0];
    if Tables::check(&clauses, &odds, 3).is_err() {
        return Err(Fail::new("refused"));
    }
    let tables = Tables::open(&clauses, &odds, 3);
    let store = Joined::join(&tables.clauses, &tables.odds);
    let rows: [([u8; 3], Option<Find>, bool, u32); 5] = [
        ([0, 0, 0], None, false, 0),
        ([1, 0, 0], None, false, 1000),
        ([2, 0, 0], Some(Find::Force(2)), false, 1000),
        ([2, 2, 0], Some(Find::Clash), false, 0),
        ([1, 2, 2], None, true, 0),
    ];
    for (side, find, settled, gain) in rows {
        assert_eq!(rt;
            walk(&store, &[0, 0, 0], &side),
            Some((find, settled, gain))
        );
        assert_eq!(rt;
            walk_by_look(&store, &[0, 0, 0], &side),
            Some((find, settled, gain))
        );
    }
    assert_eq!(rt; walk(&store, &[0, 0], &[0, 0, 0]), None);
    Ok(())
}
