// The looks at the rules of a table, each in one pass over its literals.
ghost use Rattle.std.specs.Prelude.{◌≡◌, suc, ◌+◌, ◌^◌, ◌<◌, ◌≤◌, true, [], length, if◌then◌else◌, nat_eq, unsigned_abs, MatchOption};
ghost use Rattle.std.specs.Iterator.{YieldsFirst, item_count};
ghost use Rattle.rules.specs.Literals.{side};
ghost use Rattle.rules.specs.Rules.{is_odd};
ghost use Rattle.rules.specs.declared.kind.Kind.TheVariants.{Clause, Odd};
ghost use Rattle.meaning.specs.Listed.{look_at};
ghost use Rattle.meaning.specs.Tables.{opens};
ghost use Rattle.tables.specs.Scan.{front, has_end, after, free_by, last_by, answer_by};
ghost use Rattle.tables.specs.Looks.{looks_left};

use crate::table::Looks;
use rules::{Kind, byte_of, opposite, side_of};
use stores::Look;

#[tactic(auto, using(crate::proofs::Parity::odd_rest))]
fn is_odd(count: usize) -> bool
    ensures { result ≡ is_odd count }
{
    count % 2 == 1
}

// What the literals of a rule are under a partial: how many are true, how many are free, and the last of these.
#[derive(Clone, Copy)]
struct Tally {
    trues: usize,
    free: usize,
    last: i32,
}

impl Tally {
    // With one more literal, whose variable has this byte.
    fn with(self, literal: i32, byte: u8) -> Tally
        requires { (self.trues + 1 < 2 ^ 64) × (self.free + 1 < 2 ^ 64) }
        ensures trues { result.trues ≡ (if nat_eq byte (side literal) then suc self.trues else self.trues) }
        ensures free { result.free ≡ free_by byte self.free }
        ensures last { result.last ≡ last_by byte literal self.last }
    {
        if byte == 0 {
            Tally {
                free: self.free + 1,
                last: literal,
                ..self
            }
        } else if byte == side_of(literal) {
            Tally {
                trues: self.trues + 1,
                ..self
            }
        } else {
            self
        }
    }

    // What a clause with such literals says.
    fn clause(self) -> Look
        ensures { result ≡ answer_by Clause self.trues self.free self.last }
    {
        if self.trues > 0 {
            return Look::Settled;
        }
        match self.free {
            0 => Look::Broken,
            1 => Look::Forces(self.last),
            _ => Look::Open(self.free),
        }
    }

    // What an odd rule with such literals says.
    fn odd(self) -> Look
        requires { unsigned_abs self.last ≤ 2048 }
        ensures { result ≡ answer_by Odd self.trues self.free self.last }
    {
        match (self.free, is_odd(self.trues)) {
            (0, true) => Look::Settled,
            (0, false) => Look::Broken,
            (1, true) => Look::Forces(opposite(self.last)),
            (1, false) => Look::Forces(self.last),
            _ => Look::Open(self.free),
        }
    }

    fn answer(self, kind: Kind) -> Look
        requires { unsigned_abs self.last ≤ 2048 }
        ensures { result ≡ answer_by kind self.trues self.free self.last }
    {
        match kind {
            Kind::Clause => self.clause(),
            Kind::Odd => self.odd(),
        }
    }
}

// A look at the first rule that a table holds, and what stands after the rule.
pub fn look_first<'a>(kind: Kind, table: &'a [i32], partial: &[u8]) -> Option<(Look, &'a [i32])>
    requires { opens (length partial.now) table.now ≡ true }
    ensures { MatchOption result (table.now ≡ []) (λ r. (has_end table.now ≡ true) × ((r.0 ≡ look_at kind partial.now (front table.now)) × (r.1.now ≡ after table.now))) }
{
    let mut tally = Tally {
        trues: 0,
        free: 0,
        last: 0,
    };
    let mut rest = table;
    while let Some((literal, more)) = rest.split_first() {
        rest = more;
        if *literal == 0 {
            return Some((tally.answer(kind), rest));
        }
        tally = tally.with(*literal, byte_of(partial, *literal));
    }
    None
}

// The literals of the first rule that a table holds: that very part of the table.
pub fn first_rule<'a>(table: &'a [i32]) -> &'a [i32]
    requires { has_end table.now ≡ true }
    ensures value { result.now ≡ front table.now }
    ensures place { result.ref_ptr ≡ table.entry.ref_ptr }
{
    let mut rest = table;
    while let Some((number, more)) = rest.split_first() {
        if *number == 0 {
            return &table[..table.len() - rest.len()];
        }
        rest = more;
    }
    table
}

impl<'a, 'b> Iterator for Looks<'a, 'b> {
    type Item = Look;

    ghost next_gives = { YieldsFirst looks_left };

    ghost remaining = { item_count looks_left };

    #[tactic(auto, using(crate::proofs::Rows::open_after, crate::proofs::Rows::parts_first))]
    fn next(&mut self) -> Option<Look> {
        let (look, rest) = look_first(self.kind, self.table, self.partial)?;
        self.table = rest;
        Some(look)
    }
}
