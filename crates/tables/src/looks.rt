// A table of rules as a store, and the hand-out of a rule.
ghost use Rattle.std.specs.Prelude.{◌≡◌, ◌+◌, ◌-◌, ◌*◌, ◌≤◌, true, false, length, drop, map, MatchResult, IfSome, suc, ◌<◌};
ghost use Rattle.std.specs.Option.{option_map};
ghost use Rattle.stores.specs.Numbers.{number_of};
ghost use Rattle.stores.specs.Walks.{gain_of, first_unsettled};
ghost use Rattle.meaning.specs.Listed.{look_at, nth_rule};
ghost use Rattle.meaning.specs.Tables.{parts, opens, is_rule, start_of};
ghost use Rattle.tables.specs.Laws.{table_store, table_laws};
ghost use Rattle.tables.specs.Looks.{looks_left};

use crate::scan::first_rule;
use crate::table::{Looks, Table};
use stores::{Find, Look, Refusal, Rules, gain_of, is_partial};

impl<'a> Table<'a> {
    // Whether there is a rule of this number.
    fn has_rule(&self, rule: usize) -> bool
        ensures { result ≡ is_rule self.now.rules rule }
    {
        1 <= rule && rule <= self.rules
    }

    // The index at which a rule begins.
    fn start(&self, rule: usize) -> usize
        requires { (1 ≤ rule) × (rule ≤ self.now.rules + 1) }
        ensures value { result ≡ start_of (parts self.now.table.now) rule }
        ensures within { result ≤ length self.now.table.now }
    {
        let mut at = 0;
        for _k in 1..rule {
            at += first_rule(&self.table[at..]).len() + 1;
        }
        at
    }

    // The table from a rule on.
    fn from(&self, rule: usize) -> &'a [i32]
        requires { (1 ≤ rule) × (rule ≤ self.now.rules + 1) }
        ensures sound { opens self.now.vars result.now ≡ true }
        ensures parts { parts result.now ≡ drop (rule - 1) (parts self.now.table.now) }
        ensures place { result.ref_ptr ≡ (self.now.table.ref_ptr.0, self.now.table.ref_ptr.1 + start_of (parts self.now.table.now) rule * 4) }
    {
        &self.table[self.start(rule)..]
    }

    // The literals of a rule, numbered from 1: that very part of the lent table.
    #[tactic(auto, using(crate::proofs::Places::rule_from, crate::proofs::Places::from_has, crate::proofs::Places::from_front))]
    pub fn rule(&self, rule: usize) -> Result<&'a [i32], Refusal>
        ensures { MatchResult result (λ s. (is_rule self.now.rules rule ≡ true) × (s.now ≡ nth_rule (parts self.now.table.now) rule) × (s.ref_ptr ≡ (self.now.table.ref_ptr.0, self.now.table.ref_ptr.1 + start_of (parts self.now.table.now) rule * 4))) (λ e. (is_rule self.now.rules rule ≡ false) × (number_of e ≡ 18)) }
    {
        if !self.has_rule(rule) {
            return Err(Refusal::Unfit);
        }
        Ok(first_rule(self.from(rule)))
    }

    // The looks at the rules from one on.
    #[tactic(auto, using(crate::proofs::Places::looks_parts))]
    fn looks<'b>(&self, rule: usize, partial: &'b [u8]) -> Looks<'a, 'b>
        requires { (1 ≤ rule) × ((rule ≤ self.now.rules + 1) × (length partial.now ≡ self.now.vars)) }
        ensures { looks_left result ≡ drop (rule - 1) (map (look_at self.now.kind partial.now) (parts self.now.table.now)) }
    {
        Looks {
            kind: self.kind,
            table: self.from(rule),
            partial,
        }
    }

    // How many rules stand before the first that is not settled.
    fn settled_before(&self, partial: &[u8]) -> Option<usize>
        requires { length partial.now ≡ self.now.vars }
        ensures value { first_unsettled (table_store self.now) partial.now ≡ option_map suc result }
        ensures bound { IfSome result (λ k. k < 16384) }
    {
        self.looks(1, partial).position(|look| !look.is_settled())
    }
}

// What a rule gives to the gain of a side, by its looks before and there.
fn gain_at(looks: (Look, Look)) -> u32
    ensures { result ≡ gain_of looks.0 looks.1 }
{
    gain_of(looks.0, looks.1)
}

impl<'a> Rules for Table<'a> {
    ghost means = { table_store };

    ghost laws = { table_laws };

    fn variables(&self) -> usize {
        self.vars
    }

    fn rules(&self) -> usize {
        self.rules
    }

    fn look(&self, rule: usize, partial: &[u8]) -> Result<Look, Refusal> {
        if !self.has_rule(rule) {
            return Err(Refusal::Unfit);
        }
        if is_partial(partial, self.vars) {
            Ok(self.seen(rule, partial))
        } else {
            Err(Refusal::Unfit)
        }
    }

    #[tactic(auto, using(crate::proofs::Places::looks_from))]
    fn seen(&self, rule: usize, partial: &[u8]) -> Look {
        self.looks(rule, partial).next().unwrap()
    }

    fn lowest(&self, partial: &[u8]) -> Option<Find> {
        self.looks(1, partial).find_map(Look::found)
    }

    fn gain(&self, before: &[u8], side: &[u8]) -> u32 {
        self.looks(1, before)
            .zip(self.looks(1, side))
            .map(gain_at)
            .sum()
    }

    fn unsettled(&self, partial: &[u8]) -> Option<usize> {
        Some(self.settled_before(partial)? + 1)
    }
}
