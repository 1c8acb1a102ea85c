// The node: what becomes of a branch.
ghost use Rattle.std.specs.Prelude.{◌≡◌, ℕ, ◌≤◌, true, length, if◌then◌else◌};
ghost use Rattle.rules.specs.Literals.{Partial, free};
ghost use Rattle.stores.specs.Walks.{all_settled};
ghost use Rattle.cutoff.specs.Cutoffs.{allowed, cuts_at};
ghost use Rattle.lookahead.specs.Trials.{by_gains};
ghost use Rattle.lookahead.specs.Nodes.{filled, set_in, deepened, node as node_at};
ghost use Rattle.lookahead.specs.Laws.{NodeRight};
ghost use Rattle.lookahead.specs.Answers.{decided_as, worked};

use crate::choosing::{choose, fill, set_count};
use crate::kinds::Outcome;
use crate::looking::look_ahead;
use cutoff::Cutoff;
use stack::Record;
use stores::Rules;

// With more than 20 decisions the cutoff falls.
fn deepen(cutoff: &mut Cutoff, decisions: u16)
    ensures value { cutoff.new ≡ deepened decisions cutoff.old }
    ensures range { allowed cutoff.old ≡ true → allowed cutoff.new ≡ true }
{
    if decisions > 20 {
        cutoff.fall();
    }
}

// Whether every rule is settled. If so the free variables are made false, which makes the partial a model.
fn settle<S: Rules>(store: &S, partial: &mut [u8]) -> bool
    requires { Partial (S.Rules.means store.now).n partial.old }
    ensures value { result ≡ all_settled (S.Rules.means store.now) partial.old }
    ensures leaves { partial.new ≡ (if result then filled partial.old else partial.old) }
{
    let settled = store.all_settled(partial);
    if settled {
        fill(partial);
    }
    settled
}

// Whether the cutoff says that a branch with this partial is to be handed out.
fn is_cut(cutoff: &Cutoff, decisions: u16, partial: &[u8]) -> bool
    requires { length partial.now ≤ 2048 }
    ensures { result ≡ cuts_at cutoff.now (length partial.now) decisions (set_in partial.now) }
{
    let n = partial.len() as u16;
    let set = set_count(partial) as u16;
    cutoff.cuts(n, decisions, set)
}

// What becomes of a branch that is neither settled nor cut. A literal can always be chosen there.
fn decided(chosen: Option<i32>) -> Outcome
    ensures { result ≡ decided_as chosen }
{
    match chosen {
        Some(l) => Outcome::Decided(l),
        None => Outcome::Cube,
    }
}

// Works the node of a branch with so many decisions on its partial. The memory is the partial, as many bytes for one side,
// and a place and a record for each free variable; all but the partial is scratch.
pub fn node<S: Rules>(
    store: &S,
    cutoff: &mut Cutoff,
    decisions: u16,
    partial: &mut [u8],
    side: &mut [u8],
    places: &mut [i32],
    notes: &mut [Record],
) -> Outcome
    requires { (Partial (S.Rules.means store.now).n partial.old) × ((length side.old ≡ length partial.old) × ((free partial.old ≤ length places.old) × (free partial.old ≤ length notes.old))) }
    ensures value { node_at (S.Rules.means store.now) (by_gains (S.Rules.means store.now)) cutoff.old decisions partial.old ≡ worked cutoff.new result partial.new }
    ensures fit { Partial (S.Rules.means store.now).n partial.new }
    ensures range { allowed cutoff.old ≡ true → allowed cutoff.new ≡ true }
    ensures right { NodeRight (S.Rules.means store.now) }
{
    cutoff.rise();
    let Ok(k) = look_ahead(store, partial, side, places, notes) else {
        cutoff.fall();
        return Outcome::Refuted;
    };
    deepen(cutoff, decisions);
    if settle(store, partial) {
        return Outcome::Model;
    }
    if is_cut(cutoff, decisions, partial) {
        return Outcome::Cube;
    }
    decided(choose(partial, &notes[0..k]))
}
