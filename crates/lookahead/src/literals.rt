// Literals on unused trail places: what a side has set, and setting it again.
ghost use Rattle.std.specs.Prelude.{◌≡◌, ◌<◌, ◌≤◌, length, take, if◌then◌else◌};
ghost use Rattle.rules.specs.Literals.{Literal, Each, free, is_true, put};
ghost use Rattle.lookahead.specs.Trials.{literal_of};
ghost use Rattle.lookahead.specs.Answers.{new_at, news, set_all, held};

use rules::{assign, is_true};

// The literal of the variable at a place.
pub fn literal_of(i: usize, positive: bool) -> i32
    requires { i < 2048 }
    ensures { result ≡ literal_of i positive }
{
    let v = i as i32 + 1;
    if positive { v } else { -v }
}

// The literal at a place if its variable was free before and is set after.
fn new_literal(i: usize, before: u8, after: u8) -> Option<i32>
    requires { i < 2048 }
    ensures { result ≡ new_at i before after }
{
    match (before, after) {
        (0, 0) => None,
        (0, 1) => Some(literal_of(i, true)),
        (0, _) => Some(literal_of(i, false)),
        _ => None,
    }
}

// Writes the literals that are set after and were not before, and says how many there are.
pub fn write_news(before: &[u8], after: &[u8], places: &mut [i32]) -> usize
    requires { (length after.now ≡ length before.now) × ((length before.now ≤ 2048) × (free before.now ≤ length places.old)) }
    ensures count { result ≡ length (news 0 before.now after.now) }
    ensures front { take result places.new ≡ news 0 before.now after.now }
    ensures few { result ≤ length places.new }
    ensures literals { Each (Literal (length before.now)) (take result places.new) }
{
    // Stays: the caller keeps the memory and learns how much of it was written; a loop over the places themselves would say
    // nothing of what it wrote.
    let mut k = 0;
    for (i, was) in before.iter().enumerate() {
        if let Some(l) = new_literal(i, *was, after[i]) {
            places[k] = l;
            k += 1;
        }
    }
    k
}

// Sets these literals.
pub fn adopt(partial: &mut [u8], literals: &[i32])
    ensures { partial.new ≡ set_all partial.old literals.now }
{
    for literal in literals {
        assign(partial, *literal);
    }
}

// Sets a literal that is true on the other side too.
fn adopt_if_held(partial: &mut [u8], literal: i32, other: &[u8])
    requires { (Literal (length partial.old) literal) × (length other.now ≡ length partial.old) }
    ensures { partial.new ≡ (if is_true other.now literal then put partial.old literal else partial.old) }
{
    if is_true(other, literal) {
        assign(partial, literal);
    }
}

// Sets those of a side's new literals that are true on the other side too.
pub fn adopt_held(partial: &mut [u8], news: &[i32], other: &[u8])
    requires { (Each (Literal (length partial.old)) news.now) × (length other.now ≡ length partial.old) }
    ensures { partial.new ≡ set_all partial.old (held other.now news.now) }
{
    for l in news {
        adopt_if_held(partial, *l, other);
    }
}
