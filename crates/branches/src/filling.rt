// From the trail to a partial, and a model onto the trail.
ghost use Rattle.std.specs.Prelude.{◌≡◌, ◌≤◌, length};
ghost use Rattle.rules.specs.Literals.{Partial};
ghost use Rattle.stack.specs.Items.{items, sound, size as type_size};
ghost use Rattle.account.specs.Piles.{partial_of};
ghost use Rattle.branches.specs.Spelled.{literals_of};

use lookahead::{adopt, literal_of};
use stack::Stack;

// The partial of a trail: all free, and then each literal set.
pub fn fill_partial(trail: &[i32], partial: &mut [u8])
    ensures value { partial.new ≡ partial_of (length partial.old) trail.now }
    ensures fit { Partial (length partial.old) partial.new }
{
    partial.fill(0);
    adopt(partial, trail);
}

// Lays the literals of a full assignment on the trail, in place of what was there; more variables than 2,048 are none.
#[tactic(auto, using(crate::proofs::Models::one_more))]
pub fn lay_model(trail: &mut Stack<i32>, bytes: &[u8])
    ensures items { length bytes.now ≤ type_size trail.old → length bytes.now ≤ 2048 → items trail.new ≡ literals_of 0 bytes.now }
    ensures whole { sound trail.new }
    ensures places { type_size trail.new ≡ type_size trail.old }
{
    trail.truncate(0);
    if bytes.len() > 2048 {
        return;
    }
    for (i, byte) in bytes.iter().enumerate() {
        trail.put(literal_of(i, *byte == 1));
    }
}
