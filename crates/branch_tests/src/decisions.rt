use branches::{Pile, push_decision, retreat, unsearched};
use stack::{Record, Stack};

const NONE: Record = Record {
    decision: 0,
    height: 0,
    second: false,
};

fn decided(decision: i32, height: usize, second: bool) -> Record {
    Record {
        decision,
        height,
        second,
    }
}

// 1 on its first side, and above it -2 and -3 on their second sides.
fn pile<'a>(trail: &'a mut [i32], records: &'a mut [Record]) -> Pile<'a> {
    let mut trail = Stack::new(trail);
    for l in [5, 1, 6, -2, -3, 7] {
        trail.put(l);
    }
    let mut records = Stack::new(records);
    records.put(decided(1, 1, false));
    records.put(decided(2, 3, true));
    records.put(decided(3, 4, true));
    Pile { trail, records }
}

#[test]
fn back_over_two_levels(rt: HostRuntime) {
    let mut cells = [0i32; 7];
    let mut places = [NONE; 7];
    let mut pile = pile(&mut cells, &mut places);
    assert!(rt; unsearched(pile.records.as_slice()) == 1);
    let more = pile.retreat();
    assert!(rt; more && pile.trail.as_slice() == [5, -1].as_slice());
    assert!(rt; pile.records.as_slice() == [decided(1, 1, true)].as_slice());
    assert!(rt; unsearched(pile.records.as_slice()) == 0);
    let more = pile.retreat();
    assert!(rt; !more && pile.records.as_slice().is_empty());
}

#[test]
fn a_decision_takes_what_is_new(rt: HostRuntime) {
    let mut cells = [0i32; 4];
    let mut places = [NONE; 4];
    let mut pile = Pile {
        trail: Stack::new(&mut cells),
        records: Stack::new(&mut places),
    };
    pile.push_decision(&[0, 0, 0], &[1, 0, 2], -2);
    assert!(rt; pile.trail.as_slice() == [1, -3, -2].as_slice());
    assert!(rt; pile.records.as_slice() == [decided(-2, 2, false)].as_slice());
    let more = pile.retreat();
    assert!(rt; more && pile.trail.as_slice() == [1, -3, 2].as_slice());
}

// The same over two stacks that are lent, each by itself.
#[test]
fn lent_stacks_go_back_over_two_levels(rt: HostRuntime) {
    let mut cells = [0i32; 7];
    let mut places = [NONE; 7];
    let Pile {
        mut trail,
        mut records,
    } = pile(&mut cells, &mut places);
    let more = retreat(&mut trail, &mut records);
    assert!(rt; more && trail.as_slice() == [5, -1].as_slice());
    assert!(rt; records.as_slice() == [decided(1, 1, true)].as_slice());
    let more = retreat(&mut trail, &mut records);
    assert!(rt; !more && records.as_slice().is_empty());
}

#[test]
fn lent_stacks_take_a_decision(rt: HostRuntime) {
    let mut cells = [0i32; 4];
    let mut places = [NONE; 4];
    let mut trail = Stack::new(&mut cells);
    let mut records = Stack::new(&mut places);
    push_decision(&mut trail, &mut records, &[0, 0, 0], &[1, 0, 2], -2);
    assert!(rt; trail.as_slice() == [1, -3, -2].as_slice());
    assert!(rt; records.as_slice() == [decided(-2, 2, false)].as_slice());
    let more = retreat(&mut trail, &mut records);
    assert!(rt; more && trail.as_slice() == [1, -3, 2].as_slice());
}
