use stack::{Record, Refusal, Stack};

#[test]
fn a_stack_asks_for_places(rt: HostRuntime) {
    let memory = [0i32; 4];
    assert!(rt; Stack::check(&memory, 0) == Ok(()) && Stack::check(&memory, 4) == Ok(()));
    assert!(rt; Stack::check(&memory, 5) == Err(Refusal::Short));
    assert!(rt; Refusal::Short.number() == 22);
}

#[test]
fn a_trail_over_three_places(rt: HostRuntime) {
    let mut memory = [9i32; 3];
    let mut trail = Stack::new(&mut memory);
    assert!(rt; trail.pop() == None);
    assert!(rt; trail.push(-2048) == Ok(()) && trail.push(2048) == Ok(()));
    trail.put(3);
    assert!(rt; trail.push(4) == Err(4));
    trail.put(5);
    assert!(rt; trail.pop() == Some(3));
    assert!(rt; trail.get(1) == Some(2048) && trail.get(2) == None);
    trail.truncate(1);
    assert!(rt; trail.as_slice() == [-2048].as_slice());
}

#[test]
fn a_slice_is_appended(rt: HostRuntime) {
    let mut memory = [9i32; 5];
    let mut trail = Stack::new(&mut memory);
    trail.put(1);
    assert!(rt; trail.spare_len() == 4);
    trail.extend_from_slice(&[2, 3]);
    assert!(rt; trail.as_slice() == [1, 2, 3].as_slice() && trail.spare_len() == 2);
    assert!(rt; memory == [1, 2, 3, 9, 9]);
}

#[test]
fn unused_records_are_scratch(rt: HostRuntime) {
    let decided = Record {
        decision: -3,
        height: 0,
        second: false,
    };
    let scored = Record {
        decision: 5,
        height: 1_024_002_000,
        second: false,
    };
    let mut memory = [Record {
        decision: 0,
        height: 0,
        second: true,
    }; 3];
    let mut records = Stack::new(&mut memory);
    records.put(decided);
    records.set_spare(1, scored);
    records.set_spare(2, decided);
    assert!(rt;
        [
            records.spare(1),
            records.spare(2),
            records.get(0),
            records.get(1),
        ] == [Some(scored), None, Some(decided), None]
    );
}

// Puts other memory under a stack.
fn put_under<'a>(stack: &mut Stack<'a, i32>, cells: &'a mut [i32]) {
    stack.cells = cells;
}

#[test]
fn other_memory_under_a_stack(rt: HostRuntime) {
    let mut cells = [0i32; 3];
    let mut fewer = [7i32; 1];
    let mut stack = Stack::new(&mut cells);
    for number in [1, 2, 3] {
        stack.put(number);
    }
    put_under(&mut stack, &mut fewer);
    assert!(rt; stack.len() == 3 && stack.as_slice() == [7].as_slice());
    assert!(rt; stack.push(4) == Err(4) && stack.pop() == None);
    assert!(rt; stack.spare_len() == 0 && stack.get(1) == None);
    stack.truncate(1);
    assert!(rt; stack.pop() == Some(7) && stack.as_slice().is_empty());
}
