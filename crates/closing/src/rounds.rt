// Closing a partial: each round goes over the rules once and sets what the lowest of them forces.
ghost use Rattle.std.specs.Prelude.{◌≡◌};
ghost use Rattle.rules.specs.Literals.{Partial};
ghost use Rattle.stores.specs.Walks.{lowest_of};
ghost use Rattle.closing.specs.Closing.{close as closing, left as leaving, left_by, ended, reply_of, close_reply, reply_left};
ghost use Rattle.closing.specs.Rounds.{ends_at, Went};
ghost use Rattle.closing.specs.Laws.{ClosingRight};

use crate::ending::Clash;
use rules::assign;
use stores::{Find, Refusal, Rules, is_partial};

// Goes over the rules once and sets what the lowest of them forces; says whether one does.
fn round<S: Rules>(store: &S, partial: &mut [u8]) -> Result<bool, Clash>
    requires { Partial (S.Rules.means store.now).n partial.old }
    ensures value { result ≡ ends_at (lowest_of (S.Rules.means store.now) partial.old) }
    ensures leaves { partial.new ≡ left_by (λ q. q) partial.old (lowest_of (S.Rules.means store.now) partial.old) }
    ensures goes { Went (S.Rules.means store.now) partial.old partial.new result }
    ensures fit { Partial (S.Rules.means store.now).n partial.new }
    ensures right { ClosingRight (S.Rules.means store.now) }
{
    match store.lowest(partial) {
        None => Ok(false),
        Some(Find::Clash) => Err(Clash),
        Some(Find::Force(l)) => {
            assign(partial, l);
            Ok(true)
        }
    }
}

// Closes a partial that was checked. A clash leaves the partial in which it was met.
pub fn close<S: Rules>(store: &S, partial: &mut [u8]) -> Result<(), Clash>
    requires { Partial (S.Rules.means store.now).n partial.old }
    ensures value { ended result partial.new ≡ closing (S.Rules.means store.now) partial.old }
    ensures leaves { partial.new ≡ leaving (S.Rules.means store.now) partial.old }
    ensures fit { Partial (S.Rules.means store.now).n partial.new }
    ensures right { ClosingRight (S.Rules.means store.now) }
{
    while round(store, partial)? {}
    Ok(())
}

// Closes any bytes: those that are no partial assignment are refused, and left as they are.
pub fn try_close<S: Rules>(store: &S, partial: &mut [u8]) -> Result<Result<(), Clash>, Refusal>
    ensures value { reply_of result partial.new ≡ close_reply (S.Rules.means store.now) partial.old }
    ensures leaves { partial.new ≡ reply_left (S.Rules.means store.now) partial.old }
    ensures right { ClosingRight (S.Rules.means store.now) }
{
    if !is_partial(partial, store.variables()) {
        return Err(Refusal::Unfit);
    }
    Ok(close(store, partial))
}
