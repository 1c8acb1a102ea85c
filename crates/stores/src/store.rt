// What a store of rules means, and what walks over all its rules answer.
ghost use Rattle.std.specs.Prelude.{◌≡◌, ℕ, ◌≤◌, false, not};
ghost use Rattle.std.specs.Range.{range_inclusive_start, range_inclusive_end, range_inclusive_exhausted};
ghost use Rattle.rules.specs.Literals.{Partial};
ghost use Rattle.stores.specs.Numbers.{reply_of};
ghost use Rattle.stores.specs.Stores.{Store, Lawful, look_reply, Said};
ghost use Rattle.stores.specs.Walks.{find_of, lowest_of, gained, is_settled, all_settled, first_unsettled};

use crate::look::{Find, Look, Refusal};
use crate::weight::gain_of;
use std::ops::RangeInclusive;

// The numbers of so many rules.
fn numbers(rules: usize) -> RangeInclusive<usize>
    ensures first { range_inclusive_start result ≡ 1 }
    ensures last { range_inclusive_end result ≡ rules }
    ensures fresh { range_inclusive_exhausted result ≡ false }
{
    1..=rules
}

// Anything that can be looked at as rules. A store gives its numbers and its looks; the rest follows from them,
// and a store that can go over its rules faster overrides it.
pub trait Rules {
    ghost means: { Self → Store };

    ghost laws: { Lawful means };

    fn variables(&self) -> usize
        ensures { result ≡ (means self.now).n };

    fn rules(&self) -> usize
        ensures { result ≡ (means self.now).m };

    // A look at a rule, numbered from 1, under a partial assignment.
    fn look(&self, rule: usize, partial: &[u8]) -> Result<Look, Refusal>
        ensures value { reply_of result ≡ look_reply (means self.now) rule partial.now }
        ensures says { Said (means self.now) rule partial.now result };

    // A look at a rule that is there, under a partial that was checked.
    #[tactic(auto, using(crate::proofs::Replies::looked, crate::proofs::Replies::not_refused_there))]
    fn seen(&self, rule: usize, partial: &[u8]) -> Look
        requires { (1 ≤ rule) × ((rule ≤ (means self.now).m) × (Partial (means self.now).n partial.now)) }
        ensures { result ≡ (means self.now).look rule partial.now }
    {
        self.look(rule, partial).unwrap()
    }

    // What the lowest rule that is broken or forces says.
    fn lowest(&self, partial: &[u8]) -> Option<Find>
        requires { Partial (means self.now).n partial.now }
        ensures { result ≡ lowest_of (means self.now) partial.now }
    {
        numbers(self.rules()).find_map(
            |rule|
                requires { (1 ≤ rule) × ((rule ≤ (means self.now).m) × (Partial (means self.now).n partial.now)) }
                ensures { result ≡ find_of ((means self.entry.now).look rule partial.entry.now) }
            { self.seen(rule, partial).found() },
        )
    }

    // The gain of a side: the weights of the rules that are open there with less than before.
    fn gain(&self, before: &[u8], side: &[u8]) -> u32
        requires { (Partial (means self.now).n before.now) × (Partial (means self.now).n side.now) }
        ensures { result ≡ gained (means self.now) before.now side.now }
    {
        let mut total = 0;
        for rule in 1..=self.rules() {
            total += gain_of(self.seen(rule, before), self.seen(rule, side));
        }
        total
    }

    // Whether every rule is settled.
    #[tactic(auto, using(crate::proofs::Walks::all_settled_is))]
    fn all_settled(&self, partial: &[u8]) -> bool
        requires { Partial (means self.now).n partial.now }
        ensures { result ≡ all_settled (means self.now) partial.now }
    {
        self.unsettled(partial).is_none()
    }

    // The lowest rule that is not settled.
    fn unsettled(&self, partial: &[u8]) -> Option<usize>
        requires { Partial (means self.now).n partial.now }
        ensures { result ≡ first_unsettled (means self.now) partial.now }
    {
        numbers(self.rules()).find(
            |rule|
                requires { (1 ≤ rule.now) × ((rule.now ≤ (means self.now).m) × (Partial (means self.now).n partial.now)) }
                ensures { result ≡ not (is_settled ((means self.entry.now).look rule.now partial.entry.now)) }
            { !self.seen(*rule, partial).is_settled() },
        )
    }
}
