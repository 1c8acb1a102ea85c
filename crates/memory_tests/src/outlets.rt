use outlet::{Kind, NumberOutlet, Outlet, Refusal};
use textoutlet::TextOutlet;

// Whether a put answers so, by number, and `fits` told it before.
fn put_as<O: Outlet>(out: &mut O, kind: Kind, lits: &[i32], answer: Result<(), u32>) -> bool {
    let fits = out.fits(kind, lits);
    let answered = out.put(kind, lits).map_err(Refusal::number);
    answered == answer && fits == answer.is_ok()
}

// Whether every element from a place on is the one that the memory began with.
fn untouched<T: PartialEq + Copy>(memory: &[T], from: usize, was: T) -> bool {
    memory.iter().skip(from).all(|x| *x == was)
}

// Puts a learnt clause of so many literals into so many places; all that is beyond the written part stays.
fn numbers_as(memory: &mut [i32], places: usize, lits: &[i32], answer: Result<(), u32>) -> bool {
    if places > memory.len() {
        return false;
    }
    let mut out = NumberOutlet::new(&mut memory[0..places]);
    let right = put_as(&mut out, Kind::Learnt, lits, answer);
    let written = out.as_slice().len();
    right && (answer.is_err() || written == places) && untouched(memory, written, 7)
}

// Places lent, literals of the entry, and the answer.
const NUMBERS: [(usize, usize, Result<(), u32>); 8] = [
    (2, 0, Ok(())),
    (1, 0, Err(24)),
    (0, 0, Err(24)),
    (5, 3, Ok(())),
    (4, 3, Err(24)),
    (2050, 2048, Ok(())),
    (2049, 2048, Err(24)),
    (2051, 2049, Err(24)),
];

#[test]
fn numbers_fit_or_not(rt: HostRuntime) {
    let lits = [-2048i32; 2049];
    for &(places, count, answer) in &NUMBERS {
        let mut memory = [7i32; 2060];
        assert!(rt; count <= lits.len());
        assert!(rt; numbers_as(&mut memory, places, &lits[0..count], answer));
    }
}

#[test]
fn numbers_of_entries_in_turn(rt: HostRuntime) {
    let mut memory = [7i32; 11];
    let mut out = NumberOutlet::new(&mut memory[0..9]);
    assert!(rt; out.put(Kind::Cube, &[]) == Ok(()));
    assert!(rt; out.put(Kind::Learnt, &[1, -2]) == Ok(()));
    assert!(rt; out.put(Kind::Cube, &[-2048, 2048]).map_err(Refusal::number) == Err(24));
    assert!(rt; out.put(Kind::Cube, &[-2048]) == Ok(()));
    assert!(rt; out.as_slice() == [1, 0, 2, 2, 1, -2, 1, 1, -2048].as_slice());
    assert!(rt; memory[9] == 7 && memory[10] == 7);
}

// Puts a cube of so many literals into so many bytes; all that is beyond the written part stays.
fn lines_as(memory: &mut [u8], size: usize, lits: &[i32], answer: Result<(), u32>) -> bool {
    if size > memory.len() {
        return false;
    }
    let mut out = TextOutlet::new(&mut memory[0..size]);
    let right = put_as(&mut out, Kind::Cube, lits, answer);
    let written = out.as_slice().len();
    right && (answer.is_err() || written == size) && untouched(memory, written, b'.')
}

// Bytes lent, literals of the cube, each written as `-1`, and the answer.
const LINES: [(usize, usize, Result<(), u32>); 8] = [
    (5, 0, Ok(())),
    (4, 0, Err(24)),
    (0, 0, Err(24)),
    (10, 2, Ok(())),
    (9, 2, Err(24)),
    (6148, 2048, Ok(())),
    (6147, 2048, Err(24)),
    (6151, 2049, Ok(())),
];

#[test]
fn lines_fit_or_not(rt: HostRuntime) {
    let lits = [-1i32; 2049];
    for &(size, count, answer) in &LINES {
        let mut memory = [b'.'; 6160];
        assert!(rt; count <= lits.len());
        assert!(rt; lines_as(&mut memory, size, &lits[0..count], answer));
    }
}

#[test]
fn lines_of_entries_in_turn(rt: HostRuntime) {
    let mut memory = [b'.'; 64];
    let mut out = TextOutlet::new(&mut memory);
    assert!(rt; out.put(Kind::Cube, &[]) == Ok(()));
    assert!(rt; out.as_slice() == b"C,1,\n".as_slice());
    assert!(rt; out.put(Kind::Learnt, &[1, -2]) == Ok(()));
    assert!(rt; out.put(Kind::Cube, &[-2048, 2048]) == Ok(()));
    assert!(rt; out.put(Kind::Learnt, &[]) == Ok(()));
    assert!(rt; out.as_slice() == b"C,1,\nL,1,1 -2\nC,2,-2048 2048\nL,2,\n".as_slice());
}
