// Questions and the rows of their nodes. bench/model/node_model.py works the rows out from the rules of a node.
use crate::rows::{Question, Row, hold};
use cutoff::{Cutoff, Kind};
use lookahead::Outcome;
use std::test::Fail;

// no variables and no rules: the empty model
const NO_RULES: Question = Question {
    variables: 0,
    clauses: &[],
    odds: &[],
};

const NO_RULES_ROWS: [Row; 3] = [
    Row {
        cutoff: Cutoff::Never,
        decisions: 0,
        before: [0, 0, 0, 0, 0, 0, 0],
        outcome: Outcome::Model,
        after: Some([0, 0, 0, 0, 0, 0, 0]),
        kept: (Kind::Never, 0),
    },
    Row {
        cutoff: Cutoff::Depth(0),
        decisions: 0,
        before: [0, 0, 0, 0, 0, 0, 0],
        outcome: Outcome::Model,
        after: Some([0, 0, 0, 0, 0, 0, 0]),
        kept: (Kind::Depth, 0),
    },
    Row {
        cutoff: Cutoff::Easing(2.5),
        decisions: 21,
        before: [0, 0, 0, 0, 0, 0, 0],
        outcome: Outcome::Model,
        after: Some([0, 0, 0, 0, 0, 0, 0]),
        kept: (Kind::Easing, 0x3ffd666666666666),
    },
];

#[test]
fn no_variables(rt: HostRuntime) -> Result<(), Fail> {
    hold(&rt, &NO_RULES, &NO_RULES_ROWS)
}

// the empty clause is broken from the start
const EMPTY_CLAUSE: Question = Question {
    variables: 0,
    clauses: &[0],
    odds: &[],
};

const EMPTY_CLAUSE_ROWS: [Row; 2] = [
    Row {
        cutoff: Cutoff::Never,
        decisions: 0,
        before: [0, 0, 0, 0, 0, 0, 0],
        outcome: Outcome::Refuted,
        after: None,
        kept: (Kind::Never, 0),
    },
    Row {
        cutoff: Cutoff::Easing(2.5),
        decisions: 0,
        before: [0, 0, 0, 0, 0, 0, 0],
        outcome: Outcome::Refuted,
        after: None,
        kept: (Kind::Easing, 0x3ffd666666666666),
    },
];

#[test]
fn an_empty_clause(rt: HostRuntime) -> Result<(), Fail> {
    hold(&rt, &EMPTY_CLAUSE, &EMPTY_CLAUSE_ROWS)
}

// nothing is forced, and both sides of 1 clash
const FOUR: Question = Question {
    variables: 2,
    clauses: &[1, 2, 0, 1, -2, 0, -1, 2, 0, -1, -2, 0],
    odds: &[],
};

const FOUR_ROWS: [Row; 5] = [
    Row {
        cutoff: Cutoff::Never,
        decisions: 0,
        before: [0, 0, 0, 0, 0, 0, 0],
        outcome: Outcome::Refuted,
        after: None,
        kept: (Kind::Never, 0),
    },
    Row {
        cutoff: Cutoff::Depth(0),
        decisions: 0,
        before: [0, 0, 0, 0, 0, 0, 0],
        outcome: Outcome::Refuted,
        after: None,
        kept: (Kind::Depth, 0),
    },
    Row {
        cutoff: Cutoff::Easing(2.5),
        decisions: 0,
        before: [0, 0, 0, 0, 0, 0, 0],
        outcome: Outcome::Refuted,
        after: None,
        kept: (Kind::Easing, 0x3ffd666666666666),
    },
    Row {
        cutoff: Cutoff::Easing(2.5),
        decisions: 21,
        before: [0, 0, 0, 0, 0, 0, 0],
        outcome: Outcome::Refuted,
        after: None,
        kept: (Kind::Easing, 0x3ffd666666666666),
    },
    Row {
        cutoff: Cutoff::Share(0.5),
        decisions: 3,
        before: [1, 0, 0, 0, 0, 0, 0],
        outcome: Outcome::Refuted,
        after: None,
        kept: (Kind::Share, 0x3fe0000000000000),
    },
];

#[test]
fn both_sides_fail(rt: HostRuntime) -> Result<(), Fail> {
    hold(&rt, &FOUR, &FOUR_ROWS)
}

// -1 clashes, so 1 is kept, and then 2 is made false
const FALSE_FAILS: Question = Question {
    variables: 2,
    clauses: &[1, 2, 0, 1, -2, 0],
    odds: &[],
};

const FALSE_FAILS_ROWS: [Row; 3] = [
    Row {
        cutoff: Cutoff::Never,
        decisions: 0,
        before: [0, 0, 0, 0, 0, 0, 0],
        outcome: Outcome::Model,
        after: Some([1, 2, 0, 0, 0, 0, 0]),
        kept: (Kind::Never, 0),
    },
    Row {
        cutoff: Cutoff::Never,
        decisions: 1,
        before: [0, 1, 0, 0, 0, 0, 0],
        outcome: Outcome::Model,
        after: Some([1, 1, 0, 0, 0, 0, 0]),
        kept: (Kind::Never, 0),
    },
    Row {
        cutoff: Cutoff::Depth(0),
        decisions: 0,
        before: [0, 0, 0, 0, 0, 0, 0],
        outcome: Outcome::Model,
        after: Some([1, 2, 0, 0, 0, 0, 0]),
        kept: (Kind::Depth, 0),
    },
];

#[test]
fn false_side_fails(rt: HostRuntime) -> Result<(), Fail> {
    hold(&rt, &FALSE_FAILS, &FALSE_FAILS_ROWS)
}

// 1 clashes, so -1 is kept
const TRUE_FAILS: Question = Question {
    variables: 2,
    clauses: &[-1, 2, 0, -1, -2, 0],
    odds: &[],
};

const TRUE_FAILS_ROWS: [Row; 2] = [
    Row {
        cutoff: Cutoff::Never,
        decisions: 0,
        before: [0, 0, 0, 0, 0, 0, 0],
        outcome: Outcome::Model,
        after: Some([2, 2, 0, 0, 0, 0, 0]),
        kept: (Kind::Never, 0),
    },
    Row {
        cutoff: Cutoff::Never,
        decisions: 1,
        before: [0, 2, 0, 0, 0, 0, 0],
        outcome: Outcome::Model,
        after: Some([2, 2, 0, 0, 0, 0, 0]),
        kept: (Kind::Never, 0),
    },
];

#[test]
fn true_side_fails(rt: HostRuntime) -> Result<(), Fail> {
    hold(&rt, &TRUE_FAILS, &TRUE_FAILS_ROWS)
}

// the same beside an open clause: with 1 set, two decisions are not more than 2.5, three are
const FALSE_FAILS_ASIDE: Question = Question {
    variables: 5,
    clauses: &[1, 2, 0, 1, -2, 0, 3, 4, 5, 0],
    odds: &[],
};

const FALSE_FAILS_ASIDE_ROWS: [Row; 3] = [
    Row {
        cutoff: Cutoff::Never,
        decisions: 0,
        before: [0, 0, 0, 0, 0, 0, 0],
        outcome: Outcome::Decided(3),
        after: Some([1, 0, 0, 0, 0, 0, 0]),
        kept: (Kind::Never, 0),
    },
    Row {
        cutoff: Cutoff::Share(0.5),
        decisions: 2,
        before: [0, 0, 0, 0, 0, 0, 0],
        outcome: Outcome::Decided(3),
        after: Some([1, 0, 0, 0, 0, 0, 0]),
        kept: (Kind::Share, 0x3fe0000000000000),
    },
    Row {
        cutoff: Cutoff::Share(0.5),
        decisions: 3,
        before: [0, 0, 0, 0, 0, 0, 0],
        outcome: Outcome::Cube,
        after: Some([1, 0, 0, 0, 0, 0, 0]),
        kept: (Kind::Share, 0x3fe0000000000000),
    },
];

#[test]
fn false_side_fails_beside(rt: HostRuntime) -> Result<(), Fail> {
    hold(&rt, &FALSE_FAILS_ASIDE, &FALSE_FAILS_ASIDE_ROWS)
}

// the same with the other side
const TRUE_FAILS_ASIDE: Question = Question {
    variables: 5,
    clauses: &[-1, 2, 0, -1, -2, 0, 3, 4, 5, 0],
    odds: &[],
};

const TRUE_FAILS_ASIDE_ROWS: [Row; 2] = [
    Row {
        cutoff: Cutoff::Never,
        decisions: 0,
        before: [0, 0, 0, 0, 0, 0, 0],
        outcome: Outcome::Decided(3),
        after: Some([2, 0, 0, 0, 0, 0, 0]),
        kept: (Kind::Never, 0),
    },
    Row {
        cutoff: Cutoff::Depth(1),
        decisions: 1,
        before: [0, 0, 0, 0, 0, 0, 0],
        outcome: Outcome::Cube,
        after: Some([2, 0, 0, 0, 0, 0, 0]),
        kept: (Kind::Depth, 1),
    },
];

#[test]
fn true_side_fails_beside(rt: HostRuntime) -> Result<(), Fail> {
    hold(&rt, &TRUE_FAILS_ASIDE, &TRUE_FAILS_ASIDE_ROWS)
}

// the side that is kept has forced 3
const FAILS_AND_FORCES: Question = Question {
    variables: 5,
    clauses: &[1, 2, 0, 1, -2, 0, -1, 3, 0, 3, 4, 0, -3, 4, 5, 0],
    odds: &[],
};

const FAILS_AND_FORCES_ROWS: [Row; 1] = [Row {
    cutoff: Cutoff::Never,
    decisions: 0,
    before: [0, 0, 0, 0, 0, 0, 0],
    outcome: Outcome::Decided(2),
    after: Some([1, 0, 1, 0, 0, 0, 0]),
    kept: (Kind::Never, 0),
}];

#[test]
fn what_is_kept_is_closed(rt: HostRuntime) -> Result<(), Fail> {
    hold(&rt, &FAILS_AND_FORCES, &FAILS_AND_FORCES_ROWS)
}

// both sides of 1 set 3; then 1 and 2 are made false
const NECESSARY: Question = Question {
    variables: 3,
    clauses: &[-1, 3, 0, 1, 3, 0],
    odds: &[],
};

const NECESSARY_ROWS: [Row; 1] = [Row {
    cutoff: Cutoff::Never,
    decisions: 0,
    before: [0, 0, 0, 0, 0, 0, 0],
    outcome: Outcome::Model,
    after: Some([2, 2, 1, 0, 0, 0, 0]),
    kept: (Kind::Never, 0),
}];

#[test]
fn necessary(rt: HostRuntime) -> Result<(), Fail> {
    hold(&rt, &NECESSARY, &NECESSARY_ROWS)
}

// both sides of 1 set 3, and 3 sets 4: two variables are set, and at two decisions that makes a cube
const NECESSARY_ASIDE: Question = Question {
    variables: 5,
    clauses: &[-1, 3, 0, 1, 3, 0, 1, 2, 5, 0, -3, 4, 0],
    odds: &[],
};

const NECESSARY_ASIDE_ROWS: [Row; 3] = [
    Row {
        cutoff: Cutoff::Never,
        decisions: 0,
        before: [0, 0, 0, 0, 0, 0, 0],
        outcome: Outcome::Decided(1),
        after: Some([0, 0, 1, 1, 0, 0, 0]),
        kept: (Kind::Never, 0),
    },
    Row {
        cutoff: Cutoff::Share(0.5),
        decisions: 1,
        before: [0, 0, 0, 0, 0, 0, 0],
        outcome: Outcome::Decided(1),
        after: Some([0, 0, 1, 1, 0, 0, 0]),
        kept: (Kind::Share, 0x3fe0000000000000),
    },
    Row {
        cutoff: Cutoff::Share(0.5),
        decisions: 2,
        before: [0, 0, 0, 0, 0, 0, 0],
        outcome: Outcome::Cube,
        after: Some([0, 0, 1, 1, 0, 0, 0]),
        kept: (Kind::Share, 0x3fe0000000000000),
    },
];

#[test]
fn necessary_beside(rt: HostRuntime) -> Result<(), Fail> {
    hold(&rt, &NECESSARY_ASIDE, &NECESSARY_ASIDE_ROWS)
}

// every score is the same, and the lowest variable wins; all cutoffs, easing below, at and above 20 decisions and at its two ends
const ODD3: Question = Question {
    variables: 3,
    clauses: &[],
    odds: &[1, 2, 3, 0],
};

const ODD3_ROWS: [Row; 16] = [
    Row {
        cutoff: Cutoff::Never,
        decisions: 0,
        before: [0, 0, 0, 0, 0, 0, 0],
        outcome: Outcome::Decided(1),
        after: Some([0, 0, 0, 0, 0, 0, 0]),
        kept: (Kind::Never, 0),
    },
    Row {
        cutoff: Cutoff::Depth(1),
        decisions: 0,
        before: [0, 0, 0, 0, 0, 0, 0],
        outcome: Outcome::Decided(1),
        after: Some([0, 0, 0, 0, 0, 0, 0]),
        kept: (Kind::Depth, 1),
    },
    Row {
        cutoff: Cutoff::Depth(1),
        decisions: 1,
        before: [1, 0, 0, 0, 0, 0, 0],
        outcome: Outcome::Cube,
        after: Some([1, 0, 0, 0, 0, 0, 0]),
        kept: (Kind::Depth, 1),
    },
    Row {
        cutoff: Cutoff::Depth(1),
        decisions: 1,
        before: [2, 0, 0, 0, 0, 0, 0],
        outcome: Outcome::Cube,
        after: Some([2, 0, 0, 0, 0, 0, 0]),
        kept: (Kind::Depth, 1),
    },
    Row {
        cutoff: Cutoff::Depth(0),
        decisions: 0,
        before: [0, 0, 0, 0, 0, 0, 0],
        outcome: Outcome::Cube,
        after: Some([0, 0, 0, 0, 0, 0, 0]),
        kept: (Kind::Depth, 0),
    },
    Row {
        cutoff: Cutoff::Easing(2.5),
        decisions: 0,
        before: [0, 0, 0, 0, 0, 0, 0],
        outcome: Outcome::Decided(1),
        after: Some([0, 0, 0, 0, 0, 0, 0]),
        kept: (Kind::Easing, 0x4005000000000000),
    },
    Row {
        cutoff: Cutoff::Easing(2.5),
        decisions: 20,
        before: [0, 0, 0, 0, 0, 0, 0],
        outcome: Outcome::Decided(1),
        after: Some([0, 0, 0, 0, 0, 0, 0]),
        kept: (Kind::Easing, 0x4005000000000000),
    },
    Row {
        cutoff: Cutoff::Easing(2.5),
        decisions: 21,
        before: [0, 0, 0, 0, 0, 0, 0],
        outcome: Outcome::Decided(1),
        after: Some([0, 0, 0, 0, 0, 0, 0]),
        kept: (Kind::Easing, 0x3ffd666666666666),
    },
    Row {
        cutoff: Cutoff::Easing(2.5),
        decisions: 2048,
        before: [0, 0, 0, 0, 0, 0, 0],
        outcome: Outcome::Decided(1),
        after: Some([0, 0, 0, 0, 0, 0, 0]),
        kept: (Kind::Easing, 0x3ffd666666666666),
    },
    Row {
        cutoff: Cutoff::Easing(2.5),
        decisions: 20,
        before: [1, 0, 0, 0, 0, 0, 0],
        outcome: Outcome::Cube,
        after: Some([1, 0, 0, 0, 0, 0, 0]),
        kept: (Kind::Easing, 0x4005000000000000),
    },
    Row {
        cutoff: Cutoff::Easing(1.0),
        decisions: 3,
        before: [1, 0, 0, 0, 0, 0, 0],
        outcome: Outcome::Decided(2),
        after: Some([1, 0, 0, 0, 0, 0, 0]),
        kept: (Kind::Easing, 0x3ff0cccccccccccd),
    },
    Row {
        cutoff: Cutoff::Easing(1.0),
        decisions: 4,
        before: [1, 0, 0, 0, 0, 0, 0],
        outcome: Outcome::Cube,
        after: Some([1, 0, 0, 0, 0, 0, 0]),
        kept: (Kind::Easing, 0x3ff0cccccccccccd),
    },
    Row {
        cutoff: Cutoff::Easing(0.001),
        decisions: 21,
        before: [0, 0, 0, 0, 0, 0, 0],
        outcome: Outcome::Decided(1),
        after: Some([0, 0, 0, 0, 0, 0, 0]),
        kept: (Kind::Easing, 0x3f50624dd2f1a9fc),
    },
    Row {
        cutoff: Cutoff::Easing(1000000000.0),
        decisions: 0,
        before: [0, 0, 0, 0, 0, 0, 0],
        outcome: Outcome::Decided(1),
        after: Some([0, 0, 0, 0, 0, 0, 0]),
        kept: (Kind::Easing, 0x41cdcd6500000000),
    },
    Row {
        cutoff: Cutoff::Share(2.5),
        decisions: 21,
        before: [0, 0, 0, 0, 0, 0, 0],
        outcome: Outcome::Decided(1),
        after: Some([0, 0, 0, 0, 0, 0, 0]),
        kept: (Kind::Share, 0x4004000000000000),
    },
    Row {
        cutoff: Cutoff::Never,
        decisions: 2,
        before: [1, 1, 0, 0, 0, 0, 0],
        outcome: Outcome::Model,
        after: Some([1, 1, 1, 0, 0, 0, 0]),
        kept: (Kind::Never, 0),
    },
];

#[test]
fn one_odd_rule(rt: HostRuntime) -> Result<(), Fail> {
    hold(&rt, &ODD3, &ODD3_ROWS)
}

// 2, 3 and 4 tie above 1, which is in no rule
const ODD_LATER: Question = Question {
    variables: 4,
    clauses: &[],
    odds: &[2, 3, 4, 0],
};

const ODD_LATER_ROWS: [Row; 3] = [
    Row {
        cutoff: Cutoff::Never,
        decisions: 0,
        before: [0, 0, 0, 0, 0, 0, 0],
        outcome: Outcome::Decided(2),
        after: Some([0, 0, 0, 0, 0, 0, 0]),
        kept: (Kind::Never, 0),
    },
    Row {
        cutoff: Cutoff::Never,
        decisions: 1,
        before: [0, 2, 0, 0, 0, 0, 0],
        outcome: Outcome::Decided(1),
        after: Some([0, 2, 0, 0, 0, 0, 0]),
        kept: (Kind::Never, 0),
    },
    Row {
        cutoff: Cutoff::Never,
        decisions: 0,
        before: [1, 0, 0, 0, 0, 0, 0],
        outcome: Outcome::Decided(2),
        after: Some([1, 0, 0, 0, 0, 0, 0]),
        kept: (Kind::Never, 0),
    },
];

#[test]
fn ties(rt: HostRuntime) -> Result<(), Fail> {
    hold(&rt, &ODD_LATER, &ODD_LATER_ROWS)
}

// -1 settles the clause and 1 does not, so the false side comes first
const ONE_CLAUSE: Question = Question {
    variables: 3,
    clauses: &[-1, 2, 3, 0],
    odds: &[],
};

const ONE_CLAUSE_ROWS: [Row; 3] = [
    Row {
        cutoff: Cutoff::Never,
        decisions: 0,
        before: [0, 0, 0, 0, 0, 0, 0],
        outcome: Outcome::Decided(-1),
        after: Some([0, 0, 0, 0, 0, 0, 0]),
        kept: (Kind::Never, 0),
    },
    Row {
        cutoff: Cutoff::Never,
        decisions: 1,
        before: [1, 0, 0, 0, 0, 0, 0],
        outcome: Outcome::Decided(2),
        after: Some([1, 0, 0, 0, 0, 0, 0]),
        kept: (Kind::Never, 0),
    },
    Row {
        cutoff: Cutoff::Never,
        decisions: 1,
        before: [2, 0, 0, 0, 0, 0, 0],
        outcome: Outcome::Model,
        after: Some([2, 2, 2, 0, 0, 0, 0]),
        kept: (Kind::Never, 0),
    },
];

#[test]
fn false_side_first(rt: HostRuntime) -> Result<(), Fail> {
    hold(&rt, &ONE_CLAUSE, &ONE_CLAUSE_ROWS)
}

// two of four set: a cube at two decisions, not at one
const SETS_TWO: Question = Question {
    variables: 4,
    clauses: &[-1, 2, 0, 3, 4, 0],
    odds: &[],
};

const SETS_TWO_ROWS: [Row; 3] = [
    Row {
        cutoff: Cutoff::Share(0.5),
        decisions: 1,
        before: [1, 0, 0, 0, 0, 0, 0],
        outcome: Outcome::Decided(3),
        after: Some([1, 1, 0, 0, 0, 0, 0]),
        kept: (Kind::Share, 0x3fe0000000000000),
    },
    Row {
        cutoff: Cutoff::Share(0.5),
        decisions: 2,
        before: [1, 0, 0, 0, 0, 0, 0],
        outcome: Outcome::Cube,
        after: Some([1, 1, 0, 0, 0, 0, 0]),
        kept: (Kind::Share, 0x3fe0000000000000),
    },
    Row {
        cutoff: Cutoff::Never,
        decisions: 0,
        before: [0, 0, 0, 0, 0, 0, 0],
        outcome: Outcome::Decided(1),
        after: Some([0, 0, 0, 0, 0, 0, 0]),
        kept: (Kind::Never, 0),
    },
];

#[test]
fn two_of_four(rt: HostRuntime) -> Result<(), Fail> {
    hold(&rt, &SETS_TWO, &SETS_TWO_ROWS)
}

// a branch with every rule settled is a model, before the cutoff is asked
const ALL_BUT_ONE: Question = Question {
    variables: 4,
    clauses: &[-1, 2, 0, -1, 3, 0],
    odds: &[],
};

const ALL_BUT_ONE_ROWS: [Row; 1] = [Row {
    cutoff: Cutoff::Share(0.5),
    decisions: 1,
    before: [1, 0, 0, 0, 0, 0, 0],
    outcome: Outcome::Model,
    after: Some([1, 1, 1, 2, 0, 0, 0]),
    kept: (Kind::Share, 0x3fe0000000000000),
}];

#[test]
fn model_before_cutoff(rt: HostRuntime) -> Result<(), Fail> {
    hold(&rt, &ALL_BUT_ONE, &ALL_BUT_ONE_ROWS)
}

// of five, two set are not more than 2.5, three are
const SETS_THREE: Question = Question {
    variables: 5,
    clauses: &[-1, 2, 0, -1, 3, 0, 1, -2, 0, 4, 5, 0],
    odds: &[],
};

const SETS_THREE_ROWS: [Row; 2] = [
    Row {
        cutoff: Cutoff::Share(0.5),
        decisions: 1,
        before: [2, 0, 0, 0, 0, 0, 0],
        outcome: Outcome::Decided(3),
        after: Some([2, 2, 0, 0, 0, 0, 0]),
        kept: (Kind::Share, 0x3fe0000000000000),
    },
    Row {
        cutoff: Cutoff::Share(0.5),
        decisions: 1,
        before: [1, 0, 0, 0, 0, 0, 0],
        outcome: Outcome::Cube,
        after: Some([1, 1, 1, 0, 0, 0, 0]),
        kept: (Kind::Share, 0x3fe0000000000000),
    },
];

#[test]
fn three_of_five(rt: HostRuntime) -> Result<(), Fail> {
    hold(&rt, &SETS_THREE, &SETS_THREE_ROWS)
}

// a later variable has the greatest score, its false side first
const GREATEST: Question = Question {
    variables: 5,
    clauses: &[1, 2, 3, 0, 3, 4, 0, -3, 5, 4, 0],
    odds: &[3, 4, 5, 0],
};

const GREATEST_ROWS: [Row; 3] = [
    Row {
        cutoff: Cutoff::Never,
        decisions: 0,
        before: [0, 0, 0, 0, 0, 0, 0],
        outcome: Outcome::Decided(-3),
        after: Some([0, 0, 0, 1, 0, 0, 0]),
        kept: (Kind::Never, 0),
    },
    Row {
        cutoff: Cutoff::Depth(3),
        decisions: 2,
        before: [0, 0, 2, 0, 0, 0, 0],
        outcome: Outcome::Decided(1),
        after: Some([0, 0, 2, 1, 2, 0, 0]),
        kept: (Kind::Depth, 3),
    },
    Row {
        cutoff: Cutoff::Depth(3),
        decisions: 3,
        before: [0, 0, 2, 0, 0, 0, 0],
        outcome: Outcome::Cube,
        after: Some([0, 0, 2, 1, 2, 0, 0]),
        kept: (Kind::Depth, 3),
    },
];

#[test]
fn greatest_score(rt: HostRuntime) -> Result<(), Fail> {
    hold(&rt, &GREATEST, &GREATEST_ROWS)
}

// 1 is scored and then set by the turn of 2, so it is not decided, though no score is greater
const SCORED_THEN_SET: Question = Question {
    variables: 7,
    clauses: &[
        2, 5, 0, 2, -5, 0, -2, 3, 0, -2, 4, 0, -3, -4, 1, 0, 5, 6, 7, 0,
    ],
    odds: &[],
};

const SCORED_THEN_SET_ROWS: [Row; 1] = [Row {
    cutoff: Cutoff::Never,
    decisions: 0,
    before: [0, 0, 0, 0, 0, 0, 0],
    outcome: Outcome::Decided(5),
    after: Some([1, 1, 1, 1, 0, 0, 0]),
    kept: (Kind::Never, 0),
}];

#[test]
fn scored_and_set_later(rt: HostRuntime) -> Result<(), Fail> {
    hold(&rt, &SCORED_THEN_SET, &SCORED_THEN_SET_ROWS)
}

// 4 is kept at its turn, after the turns of 1 to 3
const SET_LATER: Question = Question {
    variables: 5,
    clauses: &[1, 2, 3, 0, 4, -5, 0, 4, 5, 0],
    odds: &[1, 2, 4, 0],
};

const SET_LATER_ROWS: [Row; 2] = [
    Row {
        cutoff: Cutoff::Never,
        decisions: 0,
        before: [0, 0, 0, 0, 0, 0, 0],
        outcome: Outcome::Decided(1),
        after: Some([0, 0, 0, 1, 0, 0, 0]),
        kept: (Kind::Never, 0),
    },
    Row {
        cutoff: Cutoff::Never,
        decisions: 1,
        before: [1, 0, 0, 0, 0, 0, 0],
        outcome: Outcome::Model,
        after: Some([1, 1, 2, 1, 2, 0, 0]),
        kept: (Kind::Never, 0),
    },
];

#[test]
fn kept_late(rt: HostRuntime) -> Result<(), Fail> {
    hold(&rt, &SET_LATER, &SET_LATER_ROWS)
}
