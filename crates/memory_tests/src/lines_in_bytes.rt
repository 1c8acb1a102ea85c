use lines::{Line, line_fits, put_line};
use outlet::Kind;

// Writes a line from a place on, if it fits there, and answers the place behind it.
fn put_from(bytes: &mut [u8], at: usize, kind: Kind, n: u64, lits: &[i32]) -> Option<usize> {
    let line = Line {
        kind,
        number: n,
        lits,
    };
    if at > bytes.len() || !line.fits(bytes.len() - at) {
        return None;
    }
    Some(put_line(bytes, at, kind, n, lits))
}

#[test]
fn a_line_between_other_bytes(rt: HostRuntime) {
    let lits = [-1, 2];
    let mut bytes = [b'.'; 12];
    assert!(rt; line_fits(10, &lits, 10) && !line_fits(10, &lits, 9));
    assert!(rt; put_from(&mut bytes, 3, Kind::Learnt, 10, &lits) == None);
    assert!(rt; put_from(&mut bytes, 1, Kind::Learnt, 10, &lits) == Some(11));
    assert!(rt; bytes == *b".L,10,-1 2\n.");
}
