// The threshold's arithmetic: where it may lie, what it becomes, its bits, and the comparison that cuts.
ghost use Rattle.std.specs.Prelude.{◌≡◌, ◌*◌, true, not, T, from_bits, is_nan, to_bits};
ghost use Rattle.std.specs.Float.{binary64};
ghost use Rattle.std.specs.Float.Ieee.{mul};
ghost use Rattle.cutoff.specs.Theta.{in_range, held, scaled};
ghost use Rattle.cutoff.specs.Cutoffs.{exceeds};

const LEAST: f64 = 0.001;

const MOST: f64 = 1000000000.0;

pub const GROW: f64 = 1.05;

pub const SHRINK: f64 = 0.7;

// A NaN is at neither side of either end, so it is out of bounds.
#[tactic(auto, using(crate::proofs::Ranges::at_most))]
pub fn in_bounds(theta: f64) -> bool
    ensures { result ≡ in_range theta }
{
    (LEAST..=MOST).contains(&theta)
}

// Out of range, the nearer end.
fn hold(x: f64) -> f64
    ensures value { result ≡ held x }
    ensures range { T (not (is_nan x)) → in_range result ≡ true }
{
    x.clamp(LEAST, MOST)
}

// One product, and it is held at once.
pub fn scale(theta: f64, factor: f64) -> f64
    ensures value { result ≡ scaled factor theta }
    ensures range { T (not (is_nan (mul binary64 theta factor))) → in_range result ≡ true }
{
    hold(theta * factor)
}

// Whole numbers of 16 bits have a product of 32, and a double holds each of those exactly.
pub fn passes(n: u16, theta: f64, decisions: u16, set: u16) -> bool
    ensures { result ≡ exceeds n theta (decisions * set) }
{
    let product = u32::from(decisions) * u32::from(set);
    f64::from(product) > theta * f64::from(n)
}

// What is in range is no NaN, the only value whose bits would not be its own.
pub fn bits(theta: f64) -> u64
    requires { in_range theta ≡ true }
    ensures value { result ≡ to_bits binary64 theta }
    ensures same { from_bits binary64 result ≡ theta }
{
    theta.to_bits()
}

pub fn from_bits(bits: u64) -> f64
    requires { in_range (from_bits binary64 bits) ≡ true }
    ensures { result ≡ from_bits binary64 bits }
{
    f64::from_bits(bits)
}
