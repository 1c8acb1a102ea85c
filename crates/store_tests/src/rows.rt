// Tables of looks held to their answers.
use rules::{Fault, Kind};
use std::process::Abort;
use std::test::Fail;
use stores::{Look, Refusal, Rules};
use tables::Table;

// A rule, a partial of three variables, and the look's answer.
pub type Row = (usize, [u8; 3], Result<Look, Refusal>);

pub fn hold<S: Rules>(rt: &impl Abort, store: &S, rows: &[Row]) {
    for (rule, partial, answer) in rows {
        assert_eq!(rt; store.look(*rule, partial), *answer);
    }
}

// A look under a partial of any length is refused.
pub fn refuses<S: Rules>(rt: &impl Abort, store: &S, rule: usize, partial: &[u8]) {
    assert_eq!(rt; store.look(rule, partial), Err(Refusal::Unfit));
}

// The looks at a table of so many rules over three variables.
pub fn hold_table(
    rt: &impl Abort,
    kind: Kind,
    table: &[i32],
    rules: usize,
    rows: &[Row],
) -> Result<(), Fail> {
    if Table::check(table, 3).is_err() {
        return Err(Fail::new("the table is refused"));
    }
    let store = Table::open(kind, table, 3);
    assert_eq!(rt; store.rules(), rules);
    hold(rt, &store, rows);
    refuses(rt, &store, 1, &[]);
    refuses(rt, &store, 1, &[0, 0]);
    refuses(rt, &store, 1, &[0, 0, 0, 0]);
    Ok(())
}

// The number and the place of a refusal; 0 and 0 where there is none.
pub fn reply(res: Result<(), Fault>) -> (u32, usize) {
    match res {
        Ok(()) => (0, 0),
        Err(fault) => (fault.reason.number(), fault.place),
    }
}
