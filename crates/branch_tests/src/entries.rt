use branches::{fill_partial, free_count, lay_model, put_branch};
use outlet::{Kind, NumberOutlet, Outlet, Refusal};
use stack::{Record, Stack};

// Three decisions: 1 on its first side, -2 and 3, with other literals before and between them.
const TRAIL: [i32; 7] = [5, 1, 6, -2, 3, 7, 9];

const RECORDS: [Record; 3] = [
    Record {
        decision: 1,
        height: 1,
        second: false,
    },
    Record {
        decision: 2,
        height: 3,
        second: true,
    },
    Record {
        decision: 3,
        height: 4,
        second: false,
    },
];

// Puts the first records' branch into so many places: the answer, the numbers, and that the trail is as before.
fn put_as(
    places: usize,
    kind: Kind,
    records: &[Record],
    answer: Result<(), Refusal>,
    numbers: &[i32],
) -> bool {
    let mut trail = TRAIL;
    let mut memory = [0i32; 8];
    if places > memory.len() {
        return false;
    }
    let mut out = NumberOutlet::new(&mut memory[0..places]);
    let answered = put_branch(&mut out, kind, &mut trail, records);
    answered == answer && out.as_slice() == numbers && trail == TRAIL
}

#[test]
fn branches_are_written_and_the_trail_stays(rt: HostRuntime) {
    assert!(rt; put_as(5, Kind::Cube, &RECORDS, Ok(()), &[1, 3, 1, -2, 3]));
    assert!(rt; put_as(5, Kind::Learnt, &RECORDS, Ok(()), &[2, 3, -1, 2, -3]));
    assert!(rt; put_as(8, Kind::Cube, &RECORDS[0..1], Ok(()), &[1, 1, 1]));
    assert!(rt; put_as(2, Kind::Learnt, &RECORDS[0..0], Ok(()), &[2, 0]));
    assert!(rt; put_as(4, Kind::Cube, &RECORDS, Err(Refusal::NoRoom), &[]));
    assert!(rt; put_as(0, Kind::Learnt, &RECORDS, Err(Refusal::NoRoom), &[]));
}

#[test]
fn decisions_in_a_row_are_written(rt: HostRuntime) {
    let records = [
        Record {
            decision: -4,
            height: 0,
            second: false,
        },
        Record {
            decision: -3,
            height: 1,
            second: true,
        },
    ];
    let mut trail = [-4, 3];
    let mut memory = [0i32; 4];
    let mut out = NumberOutlet::new(&mut memory);
    let answer = put_branch(&mut out, Kind::Learnt, &mut trail, &records);
    assert!(rt; answer == Ok(()) && trail == [-4, 3]);
    assert!(rt; out.as_slice() == [2, 2, 4, -3].as_slice());
}

#[test]
fn more_records_than_cells_are_refused(rt: HostRuntime) {
    let mut trail = [1, 2];
    let mut memory = [0i32; 8];
    let mut out = NumberOutlet::new(&mut memory);
    let answer = put_branch(&mut out, Kind::Cube, &mut trail, &RECORDS);
    assert!(rt; answer == Err(Refusal::NoRoom) && trail == [1, 2] && out.as_slice().is_empty());
}

#[test]
fn a_partial_is_filled(rt: HostRuntime) {
    let mut partial = [2u8; 8];
    fill_partial(&TRAIL[0..6], &mut partial);
    assert!(rt; partial == [1, 2, 1, 0, 1, 1, 1, 0] && free_count(&partial) == 2);
    let mut few = [1u8; 3];
    fill_partial(&[9, -3, i32::MIN, i32::MAX], &mut few);
    assert!(rt; few == [0, 0, 2] && free_count(&few) == 2);
    fill_partial(&[], &mut few);
    assert!(rt; few == [0, 0, 0] && free_count(&[]) == 0);
}

#[test]
fn a_model_is_laid(rt: HostRuntime) {
    let mut memory = [7i32; 4];
    let mut trail = Stack::new(&mut memory);
    trail.put(4);
    lay_model(&mut trail, &[1, 2, 1]);
    assert!(rt; trail.as_slice() == [1, -2, 3].as_slice());
    lay_model(&mut trail, &[]);
    assert!(rt; trail.as_slice().is_empty());
}
