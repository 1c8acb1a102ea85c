// A variable's turn: both of its sides are closed, and what they come to is set.
ghost use Rattle.std.specs.Prelude.{◌≡◌, ℕ, ◌<◌, ◌≤◌, List, length, slice_index, true, IfOk};
ghost use Rattle.rules.specs.Literals.{Partial, Extends, Literal, Each, free, put};
ghost use Rattle.closing.specs.Closing.{close as closing, left as leaving, ended};
ghost use Rattle.lookahead.specs.Trials.{Scored, Pass, by_gains, turn_of, literal_of};
ghost use Rattle.lookahead.specs.Answers.{Taken, sides_left, ranked_by, goes_on, set_all, held};

use crate::kinds::Gains;
use crate::literals::{adopt, adopt_held, literal_of, write_news};
use closing::{Clash, close};
use rules::assign;
use stores::Rules;

// One side of the variable at a place, closed. It costs a copy of n bytes and its own closing.
fn try_side<S: Rules>(
    store: &S,
    partial: &[u8],
    side: &mut [u8],
    i: usize,
    positive: bool,
) -> Result<(), Clash>
    requires { (Partial (S.Rules.means store.now).n partial.now) × ((length side.old ≡ length partial.now) × (i < length partial.now)) }
    ensures value { ended result side.new ≡ closing (S.Rules.means store.now) (put partial.now (literal_of i positive)) }
    ensures fit { Partial (S.Rules.means store.now).n side.new }
    ensures leaves { side.new ≡ leaving (S.Rules.means store.now) (put partial.now (literal_of i positive)) }
{
    side.copy_from_slice(partial);
    assign(side, literal_of(i, positive));
    close(store, side)
}

// What is kept of a side while the other one is closed in its place: its gain, and how many new literals it has.
#[derive(Clone, Copy)]
struct Kept {
    gain: u32,
    news: usize,
}

// The true side of the variable at a place, closed, with its new literals on the places.
fn try_true_side<S: Rules>(
    store: &S,
    partial: &[u8],
    side: &mut [u8],
    places: &mut [i32],
    i: usize,
) -> Result<Kept, Clash>
    requires { (Partial (S.Rules.means store.now).n partial.now) × ((length side.old ≡ length partial.now) × ((free partial.now ≤ length places.old) × (i < length partial.now))) }
    ensures value { ended result side.new ≡ closing (S.Rules.means store.now) (put partial.now (literal_of i true)) }
    ensures fit { Partial (S.Rules.means store.now).n side.new }
    ensures leaves { side.new ≡ leaving (S.Rules.means store.now) (put partial.now (literal_of i true)) }
    ensures kept { IfOk result (λ k. Taken (S.Rules.means store.now) partial.now side.new places.new k.gain k.news) }
{
    try_side(store, partial, side, i, true)?;
    let gain = store.gain(partial, side);
    let news = write_news(partial, side, places);
    Ok(Kept { gain, news })
}

// Which sides of a variable are left.
#[derive(Clone, Copy)]
enum Left {
    False,
    True(Kept),
    Both(Kept),
}

// Which sides are left, by how the true side and the false side ended; a clash where none is.
fn sides_left(first: Result<Kept, Clash>, second: Result<(), Clash>) -> Result<Left, Clash>
    ensures { result ≡ sides_left first second }
{
    match (first, second) {
        (Err(_), Err(clash)) => Err(clash),
        (Err(_), Ok(())) => Ok(Left::False),
        (Ok(kept), Err(_)) => Ok(Left::True(kept)),
        (Ok(kept), Ok(())) => Ok(Left::Both(kept)),
    }
}

// What both sides have set, set in the partial, which is then closed.
#[tactic(auto, using(crate::proofs::Turns::set_all_fits))]
fn share<S: Rules>(store: &S, partial: &mut [u8], side: &[u8], news: &[i32]) -> Result<(), Clash>
    requires sides { (Partial (S.Rules.means store.now).n partial.old) × (Partial (S.Rules.means store.now).n side.now) }
    requires news { Each (Literal (length partial.old)) news.now }
    ensures value { ended result partial.new ≡ closing (S.Rules.means store.now) (set_all partial.old (held side.now news.now)) }
    ensures leaves { partial.new ≡ leaving (S.Rules.means store.now) (set_all partial.old (held side.now news.now)) }
    ensures fit { Partial (S.Rules.means store.now).n partial.new }
{
    adopt_held(partial, news, side);
    close(store, partial)
}

// A turn in which both sides closed, by how closing what they share ended.
fn ranked(shared: Result<(), Clash>, gains: Gains) -> Result<Option<Gains>, Clash>
    ensures { result ≡ ranked_by shared gains }
{
    match shared {
        Err(clash) => Err(clash),
        Ok(()) => Ok(Some(gains)),
    }
}

// The turn of a free variable: a clash where both sides clash, or what they share does. Its gains where neither clashes;
// where one does, the partial is the other side. The true side's new literals stand on unused trail places while the false
// side is closed.
pub fn trial<S: Rules>(
    store: &S,
    partial: &mut [u8],
    side: &mut [u8],
    places: &mut [i32],
    i: usize,
) -> Result<Option<Gains>, Clash>
    requires { (Partial (S.Rules.means store.now).n partial.old) × ((length side.old ≡ length partial.old) × ((free partial.old ≤ length places.old) × ((i < length partial.old) × (slice_index partial.old i ≡ 0)))) }
    ensures value { (go : List ℕ → List Scored → Pass) (xs : List Scored) → turn_of (S.Rules.means store.now) (by_gains (S.Rules.means store.now)) go partial.old i xs 0 ≡ goes_on result go partial.new i xs }
    ensures fit { Partial (S.Rules.means store.now).n partial.new }
    ensures adds { Extends partial.new partial.old }
{
    let first = try_true_side(store, partial, side, places, i);
    let second = try_side(store, partial, side, i, false);
    match sides_left(first, second)? {
        Left::False => {
            partial.copy_from_slice(side);
            Ok(None)
        }
        Left::True(kept) => {
            adopt(partial, &places[..kept.news]);
            Ok(None)
        }
        Left::Both(kept) => {
            let gains = Gains {
                yes: kept.gain,
                no: store.gain(partial, side),
            };
            let shared = share(store, partial, side, &places[..kept.news]);
            ranked(shared, gains)
        }
    }
}
