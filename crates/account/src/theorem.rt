// What the definitions of the account are worth.
ghost use Rattle.std.specs.Prelude.{ℕ};
ghost use Rattle.account.specs.Theorem.{TreeHolds};
ghost use Rattle.account.specs.Piles.{PilesRight};
ghost use Rattle.account.specs.Cases.{RunsHold};

use stores::Rules;

// After any list of calls no case is left out, nothing learnt is false, and "none" means none.
pub fn tree_holds<S: Rules>(store: &S)
    ensures { TreeHolds (S.Rules.means store.now) }
{}

// Trail and branch records stand for the open branches.
pub fn piles_right()
    ensures { (n : ℕ) → PilesRight n }
{}

// The worked runs, whose answers and entries are told one by one.
pub fn runs_hold()
    ensures { RunsHold }
{}
