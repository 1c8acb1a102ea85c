// A literal makes its variable's byte 1 or 2, and leaves the others.
use closing::assign;

#[test]
fn assigns(rt: HostRuntime) {
    let mut partial = [0u8, 0, 0];
    assign(&mut partial, 2);
    assign(&mut partial, -3);
    assert_eq!(rt; partial, [0, 1, 2]);
}
