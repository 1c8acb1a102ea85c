// What a question holds, as its store tells it.
ghost use Rattle.std.specs.Prelude.{◌≡◌};
ghost use Rattle.std.proofs.Math.Option.{none};
ghost use Rattle.stores.specs.Joins.{join_fault};

use stores::{Joined, Rules};

#[derive(Clone, Copy)]
pub struct Held {
    pub variables: usize,
    pub clauses: usize,
    pub odds: usize,
}

// The clauses' store joined with the odd rules' store: its variables, and the rules of each.
pub fn counted<F: Rules, G: Rules>(clauses: &F, odds: &G) -> Held
    requires { join_fault (F.Rules.means clauses.now) (G.Rules.means odds.now) ≡ none }
    ensures variables { result.variables ≡ (F.Rules.means clauses.now).n }
    ensures clauses { result.clauses ≡ (F.Rules.means clauses.now).m }
    ensures odds { result.odds ≡ (G.Rules.means odds.now).m }
{
    let joined = Joined::join(clauses, odds);
    let first = clauses.rules();
    let all = joined.rules();
    Held {
        variables: joined.variables(),
        clauses: first,
        odds: all - first,
    }
}
