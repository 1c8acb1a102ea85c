// Two stores as one, the second's rules numbered after the first's.
ghost use Rattle.std.specs.Prelude.{◌≡◌};
ghost use Rattle.std.proofs.Math.Option.{none};
ghost use Rattle.stores.specs.Numbers.{fault_of};
ghost use Rattle.stores.specs.Joins.{joinable, join_fault, joins};
ghost use Rattle.stores.specs.JoinLaws.{join_laws};

use crate::look::{Find, Look, Refusal};
use crate::store::Rules;
use rules::{Fault, Reason};

#[derive(Drop)]
pub struct Joined<'a, 'b, F: Rules, G: Rules> {
    first: &'a F,
    second: &'b G,
    ghost joined: { join_fault (F.Rules.means first.now) (G.Rules.means second.now) ≡ none },
}

impl<'a, 'b, F: Rules, G: Rules> Joined<'a, 'b, F, G> {
    // Whether two stores may be joined: they have the same variables and not too many rules.
    fn fit(first: &F, second: &G) -> bool
        ensures { result ≡ joinable (F.Rules.means first.now) (G.Rules.means second.now) }
    {
        if first.variables() != second.variables() {
            return false;
        }
        first.rules() + second.rules() <= 16384
    }

    // Refuses two stores that may not be joined.
    pub fn check(first: &F, second: &G) -> Result<(), Fault>
        ensures { fault_of result ≡ join_fault (F.Rules.means first.now) (G.Rules.means second.now) }
    {
        if Joined::fit(first, second) {
            Ok(())
        } else {
            Err(Fault {
                reason: Reason::Limits,
                place: 0,
            })
        }
    }

    // The two stores as one, once they have been checked.
    pub fn join(first: &'a F, second: &'b G) -> Joined<'a, 'b, F, G>
        requires { join_fault (F.Rules.means first.now) (G.Rules.means second.now) ≡ none }
        ensures { (result.first ≡ first.entry) × (result.second ≡ second.entry) }
    {
        Joined { first, second }
    }
}

impl<'a, 'b, F: Rules, G: Rules> Rules for Joined<'a, 'b, F, G> {
    ghost means = { λ s. joins (F.Rules.means s.first.now) (G.Rules.means s.second.now) };

    ghost laws = { join_laws F.Rules.laws G.Rules.laws (λ s. s.first.now) (λ s. s.second.now) };

    fn variables(&self) -> usize {
        self.first.variables()
    }

    fn rules(&self) -> usize {
        self.first.rules() + self.second.rules()
    }

    fn look(&self, rule: usize, partial: &[u8]) -> Result<Look, Refusal> {
        let m = self.first.rules();
        if rule <= m {
            self.first.look(rule, partial)
        } else {
            self.second.look(rule - m, partial)
        }
    }

    fn seen(&self, rule: usize, partial: &[u8]) -> Look {
        let m = self.first.rules();
        if rule <= m {
            self.first.seen(rule, partial)
        } else {
            self.second.seen(rule - m, partial)
        }
    }

    #[tactic(auto, using(crate::proofs::Joining::found_both))]
    fn lowest(&self, partial: &[u8]) -> Option<Find> {
        self.first
            .lowest(partial)
            .or_else(|| self.second.lowest(partial))
    }

    #[tactic(auto, using(crate::proofs::Joining::gain_both, crate::proofs::Joining::both_few, crate::proofs::Walks::gain_few))]
    fn gain(&self, before: &[u8], side: &[u8]) -> u32 {
        self.first.gain(before, side) + self.second.gain(before, side)
    }

    #[tactic(auto, using(crate::proofs::Joining::settled_both))]
    fn all_settled(&self, partial: &[u8]) -> bool {
        self.first.all_settled(partial) && self.second.all_settled(partial)
    }

    #[tactic(auto, using(crate::proofs::Joining::unsettled_both, crate::proofs::Joining::both_few, crate::proofs::Walks::unsettled_few))]
    fn unsettled(&self, partial: &[u8]) -> Option<usize> {
        match self.first.unsettled(partial) {
            Some(rule) => Some(rule),
            None => Some(self.first.rules() + self.second.unsettled(partial)?),
        }
    }
}
