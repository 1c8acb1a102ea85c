// The root node over a store, again and again.
use crate::question::VARIABLES;
use cutoff::Cutoff;
use lookahead::{Outcome, node, set_count};
use stack::Record;
use stores::{Rules, is_partial};

// What a root came to: the decided literal, how many variables are set then, and the sum of the scores.
#[derive(Clone, Copy)]
pub struct Found {
    pub literal: i32,
    pub set: usize,
    pub scores: usize,
}

fn sum_of(notes: &[Record]) -> usize {
    notes
        .iter()
        .fold(0, |sum: usize, note| sum.wrapping_add(note.height))
}

const BLANK: Record = Record {
    decision: 0,
    height: 0,
    second: false,
};

// The root node without a cutoff; none if it decides nothing.
fn root<S: Rules>(store: &S) -> Option<Found> {
    let mut partial = [0u8; VARIABLES];
    let mut side = [0u8; VARIABLES];
    let mut places = [0i32; VARIABLES];
    let mut notes = [BLANK; VARIABLES];
    if !is_partial(&partial, store.variables()) {
        return None;
    }
    let mut cutoff = Cutoff::Never;
    let outcome = node(
        store,
        &mut cutoff,
        0,
        &mut partial,
        &mut side,
        &mut places,
        &mut notes,
    );
    match outcome {
        Outcome::Decided(literal) => Some(Found {
            literal,
            set: set_count(&partial),
            scores: sum_of(&notes),
        }),
        _ => None,
    }
}

// The same so many times: the last, with the scores of all summed.
pub fn repeat<S: Rules>(store: &S, times: u8) -> Option<Found> {
    let mut last = root(store)?;
    for _ in 1..times {
        let found = root(store)?;
        last = Found {
            scores: found.scores.wrapping_add(last.scores),
            ..found
        };
    }
    Some(last)
}
