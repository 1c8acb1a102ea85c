// A node as a row: what it is worked on, and what it comes to.
use cutoff::{Cutoff, Kept, Kind};
use lookahead::{Outcome, node};
use stack::Record;
use std::process::Abort;
use std::test::Fail;
use stores::{Joined, Rules, is_partial};
use tables::Tables;

pub struct Question {
    pub variables: usize,
    pub clauses: &'static [i32],
    pub odds: &'static [i32],
}

// Partials have seven bytes, of which a question with fewer variables uses the first.
pub struct Row {
    pub cutoff: Cutoff,
    pub decisions: u16,
    pub before: [u8; 7],
    pub outcome: Outcome,
    // the last partial, or the model; of a refuted branch it is not told
    pub after: Option<[u8; 7]>,
    // the next cutoff as its kind and a number
    pub kept: (Kind, u64),
}

const BLANK: Record = Record {
    decision: 0,
    height: 0,
    second: false,
};

// Works the node of a branch with this partial, which is left as the last partial. None if it is no partial of the store.
pub fn work<S: Rules>(
    store: &S,
    cutoff: &mut Cutoff,
    decisions: u16,
    partial: &mut [u8],
) -> Option<Outcome> {
    let n = partial.len();
    if n > 7 {
        return None;
    }
    if !is_partial(partial, store.variables()) {
        return None;
    }
    let mut side = [0u8; 7];
    let mut places = [0i32; 7];
    let mut notes = [BLANK; 7];
    Some(node(
        store,
        cutoff,
        decisions,
        partial,
        &mut side[0..n],
        &mut places,
        &mut notes,
    ))
}

// What a cutoff is kept as, if it is allowed.
fn kept(cutoff: Cutoff) -> Option<(Kind, u64)> {
    cutoff.check().ok()?;
    let kept = Kept::keep(cutoff);
    Some((kept.kind, kept.bits))
}

pub fn hold_row<S: Rules>(rt: &impl Abort, store: &S, row: &Row) -> Result<(), Fail> {
    let mut bytes = row.before;
    let mut cutoff = row.cutoff;
    let n = store.variables();
    if n > 7 {
        return Err(Fail::new("too many variables"));
    }
    assert_eq!(rt;
        work(store, &mut cutoff, row.decisions, &mut bytes[0..n]),
        Some(row.outcome)
    );
    assert_eq!(rt; kept(cutoff), Some(row.kept));
    let told = if row.outcome == Outcome::Refuted {
        None
    } else {
        Some(bytes)
    };
    assert_eq!(rt; told, row.after);
    Ok(())
}

pub fn hold(rt: &impl Abort, question: &Question, rows: &[Row]) -> Result<(), Fail> {
    if Tables::check(question.clauses, question.odds, question.variables).is_err() {
        return Err(Fail::new("the tables are refused"));
    }
    let tables = Tables::open(question.clauses, question.odds, question.variables);
    let store = Joined::join(&tables.clauses, &tables.odds);
    for row in rows {
        hold_row(rt, &store, row)?;
    }
    Ok(())
}
