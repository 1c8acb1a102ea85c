// The pass: each variable that is still free at its turn is tried.
ghost use Rattle.std.specs.Prelude.{◌≡◌, ◌<◌, ◌≤◌, length, MatchBool, ◌≢◌, slice_index, IfOk};
ghost use Rattle.rules.specs.Literals.{Partial, free};
ghost use Rattle.lookahead.specs.Trials.{by_gains, rank_of, scored, lookahead};
ghost use Rattle.lookahead.specs.Answers.{noted, passed};

use crate::kinds::Gains;
use crate::literals::literal_of;
use crate::trials::trial;
use closing::{Clash, close};
use stack::Record;
use stores::Rules;

impl Gains {
    // 1024·L·R + L + R. Gains are at most 16,384,000, below 2^24, so the product is below 2^58 and nothing overflows.
    fn score(self) -> usize
        ensures { result ≡ (rank_of self.yes self.no).score }
    {
        let yes = self.yes as usize;
        let no = self.no as usize;
        1024 * (yes * no) + (yes + no)
    }

    // A scored variable as it stands in an unused record: the literal that would be decided, and its score.
    fn note(self, i: usize) -> Record
        requires { i < 2048 }
        ensures { noted result ≡ scored i (rank_of self.yes self.no) }
    {
        let positive = self.yes <= self.no;
        Record {
            decision: literal_of(i, positive),
            height: self.score(),
            second: false,
        }
    }
}

// Whether the variable at a place is free.
fn is_free(partial: &[u8], i: usize) -> bool
    requires { i < length partial.now }
    ensures { MatchBool result (slice_index partial.now i ≡ 0) (slice_index partial.now i ≢ 0) }
{
    partial[i] == 0
}

// Closes the partial and gives every variable its turn; says how many variables were scored. Their scores stand at the start
// of `notes`.
pub fn look_ahead<S: Rules>(
    store: &S,
    partial: &mut [u8],
    side: &mut [u8],
    places: &mut [i32],
    notes: &mut [Record],
) -> Result<usize, Clash>
    requires { (Partial (S.Rules.means store.now).n partial.old) × ((length side.old ≡ length partial.old) × ((free partial.old ≤ length places.old) × (free partial.old ≤ length notes.old))) }
    ensures value { lookahead (S.Rules.means store.now) (by_gains (S.Rules.means store.now)) partial.old ≡ passed result partial.new notes.new }
    ensures fit { Partial (S.Rules.means store.now).n partial.new }
    ensures few { IfOk result (λ k. k ≤ length notes.new) }
{
    close(store, partial)?;
    // Stays: each turn sets bytes of the partial, so that no iterator can hold it. The scores stand in records, since unused
    // records are what a node is lent.
    let mut k = 0;
    for i in 0..partial.len() {
        if is_free(partial, i) {
            if let Some(gains) = trial(store, partial, side, places, i)? {
                notes[k] = gains.note(i);
                k += 1;
            }
        }
    }
    Ok(k)
}
