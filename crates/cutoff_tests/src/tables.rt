use Move::{Fall, Rise};
use cutoff::{Cutoff, Kept, Kind, Refusal};

// What a cutoff is kept as, if it is allowed and still the same once it came back.
fn kept(cutoff: Cutoff) -> Option<(Kind, u64)> {
    cutoff.check().ok()?;
    let first = Kept::keep(cutoff);
    let again = Kept::keep(first.cutoff());
    (first == again).then_some((first.kind, first.bits))
}

// A kind, and the number that stands for it.
const KINDS: [(Kind, u8); 4] = [
    (Kind::Never, 0),
    (Kind::Depth, 1),
    (Kind::Share, 2),
    (Kind::Easing, 3),
];

#[test]
fn kinds_have_these_numbers(rt: HostRuntime) {
    for &(kind, number) in &KINDS {
        assert!(rt; kind.number() == number);
        assert!(rt; Kind::from_number(number) == Some(kind));
    }
    assert!(rt; Kind::from_number(4).is_none());
}

// How a threshold moves under easing.
#[derive(Clone, Copy)]
enum Move {
    Rise,
    Fall,
}

// The cutoff after each move in turn.
fn moved(mut cutoff: Cutoff, moves: &[Move]) -> Cutoff {
    for m in moves {
        match m {
            Move::Rise => cutoff.rise(),
            Move::Fall => cutoff.fall(),
        }
    }
    cutoff
}

const THIRD: f64 = 0.3333333333333333;

// A cutoff, variables, decisions, set variables, and whether it cuts.
const CUTS: [(Cutoff, u16, u16, u16, bool); 25] = [
    (Cutoff::Never, 4, 4, 4, false),
    (Cutoff::Never, 2048, 2048, 2048, false),
    (Cutoff::Never, 0, 0, 0, false),
    (Cutoff::Depth(0), 4, 0, 0, true),
    (Cutoff::Depth(0), 0, 0, 0, true),
    (Cutoff::Depth(1), 4, 0, 4, false),
    (Cutoff::Depth(1), 4, 1, 1, true),
    (Cutoff::Depth(2048), 2048, 2047, 2048, false),
    (Cutoff::Depth(2048), 2048, 2048, 2048, true),
    (Cutoff::Share(0.5), 4, 1, 2, false),
    (Cutoff::Share(0.5), 4, 1, 3, true),
    (Cutoff::Share(0.5), 4, 0, 4, false),
    (Cutoff::Share(0.5), 0, 0, 0, false),
    (Cutoff::Share(2.5), 4, 3, 3, false),
    (Cutoff::Share(2.5), 4, 3, 4, true),
    (Cutoff::Easing(0.5), 4, 1, 2, false),
    (Cutoff::Easing(0.5), 4, 1, 3, true),
    // 2.048
    (Cutoff::Share(0.001), 2048, 1, 2, false),
    (Cutoff::Share(0.001), 2048, 1, 3, true),
    (Cutoff::Easing(1000000000.0), 2048, 2048, 2048, false),
    // the greatest product that there is, and the threshold just at it
    (Cutoff::Share(2048.0), 2048, 2048, 2048, false),
    (Cutoff::Share(2047.999), 2048, 2048, 2048, true),
    // three times this is below 1, and is rounded to 1
    (Cutoff::Share(THIRD), 3, 1, 1, false),
    (Cutoff::Share(THIRD), 3, 1, 2, true),
    (Cutoff::Easing(THIRD), 3, 2, 1, true),
];

#[test]
fn branches_are_cut_or_not(rt: HostRuntime) {
    for &(cutoff, n, decisions, set, cut) in &CUTS {
        assert!(rt; cutoff.cuts(n, decisions, set) == cut);
    }
}

// A cutoff, and the number that it is refused with.
const RANGES: [(Cutoff, Option<u32>); 20] = [
    (Cutoff::Never, None),
    (Cutoff::Depth(0), None),
    (Cutoff::Depth(2048), None),
    (Cutoff::Depth(2049), Some(21)),
    (Cutoff::Depth(65535), Some(21)),
    (Cutoff::Share(0.001), None),
    (Cutoff::Share(0.0009999999999999998), Some(21)),
    (Cutoff::Share(1000000000.0), None),
    (Cutoff::Share(1000000000.0000001), Some(21)),
    (Cutoff::Share(0.0), Some(21)),
    (Cutoff::Share(-1.0), Some(21)),
    (Cutoff::Share(0.0 / 0.0), Some(21)),
    (Cutoff::Share(1.0 / 0.0), Some(21)),
    (Cutoff::Share(-1.0 / 0.0), Some(21)),
    (Cutoff::Easing(0.001), None),
    (Cutoff::Easing(0.0009999999999999998), Some(21)),
    (Cutoff::Easing(1000000000.0), None),
    (Cutoff::Easing(1000000000.0000001), Some(21)),
    (Cutoff::Easing(0.0 / 0.0), Some(21)),
    (Cutoff::Easing(-0.5), Some(21)),
];

#[test]
fn cutoffs_out_of_range_are_refused(rt: HostRuntime) {
    for &(cutoff, number) in &RANGES {
        assert_eq!(rt; cutoff.check().err().map(Refusal::number), number);
    }
}

// A cutoff, its moves, and the kind and the bits that are kept then.
const MOVES: [(Cutoff, &[Move], Kind, u64); 24] = [
    (Cutoff::Never, &[], Kind::Never, 0),
    (Cutoff::Never, &[Rise, Fall], Kind::Never, 0),
    (Cutoff::Depth(7), &[], Kind::Depth, 7),
    (Cutoff::Depth(2048), &[Rise, Rise, Fall], Kind::Depth, 2048),
    (Cutoff::Share(0.5), &[], Kind::Share, 0x3fe0000000000000),
    (Cutoff::Share(0.5), &[Rise], Kind::Share, 0x3fe0000000000000),
    (Cutoff::Share(0.5), &[Fall], Kind::Share, 0x3fe0000000000000),
    (Cutoff::Easing(0.5), &[], Kind::Easing, 0x3fe0000000000000),
    (
        Cutoff::Easing(1.0),
        &[Rise],
        Kind::Easing,
        0x3ff0cccccccccccd,
    ),
    (
        Cutoff::Easing(1.0),
        &[Fall],
        Kind::Easing,
        0x3fe6666666666666,
    ),
    // the order of two moves can be seen in the last bit
    (
        Cutoff::Easing(2.5),
        &[Rise, Fall],
        Kind::Easing,
        0x3ffd666666666666,
    ),
    (
        Cutoff::Easing(2.5),
        &[Fall, Rise],
        Kind::Easing,
        0x3ffd666666666667,
    ),
    (
        Cutoff::Easing(0.3),
        &[Rise, Rise, Rise],
        Kind::Easing,
        0x3fd639f559b3d07e,
    ),
    // at the lower end, and just above it
    (
        Cutoff::Easing(0.001),
        &[Fall],
        Kind::Easing,
        0x3f50624dd2f1a9fc,
    ),
    (
        Cutoff::Easing(0.001),
        &[Fall, Fall],
        Kind::Easing,
        0x3f50624dd2f1a9fc,
    ),
    (
        Cutoff::Easing(0.001),
        &[Rise],
        Kind::Easing,
        0x3f513404ea4a8c16,
    ),
    (
        Cutoff::Easing(0.001),
        &[Fall, Rise],
        Kind::Easing,
        0x3f513404ea4a8c16,
    ),
    (
        Cutoff::Easing(0.0014),
        &[Fall],
        Kind::Easing,
        0x3f50624dd2f1a9fc,
    ),
    (
        Cutoff::Easing(0.00143),
        &[Fall],
        Kind::Easing,
        0x3f50667f90d9d777,
    ),
    // at the upper end, and just below it
    (
        Cutoff::Easing(1000000000.0),
        &[Rise],
        Kind::Easing,
        0x41cdcd6500000000,
    ),
    (
        Cutoff::Easing(1000000000.0),
        &[Fall],
        Kind::Easing,
        0x41c4dc9380000000,
    ),
    (
        Cutoff::Easing(1000000000.0),
        &[Rise, Fall],
        Kind::Easing,
        0x41c4dc9380000000,
    ),
    (
        Cutoff::Easing(960000000.0),
        &[Rise],
        Kind::Easing,
        0x41cdcd6500000000,
    ),
    (
        Cutoff::Easing(950000000.0),
        &[Rise],
        Kind::Easing,
        0x41cdba5230000000,
    ),
];

#[test]
fn thresholds_move_to_these_bits(rt: HostRuntime) {
    for &(cutoff, moves, kind, bits) in &MOVES {
        assert!(rt; kept(moved(cutoff, moves)) == Some((kind, bits)));
    }
}
