// What one rule gives to the gain of a side.
ghost use Rattle.std.specs.Prelude.{◌≡◌, ◌≤◌};
ghost use Rattle.stores.specs.Walks.{gain_of, weight};

use crate::look::Look;

// The weight of a rule that is open with k.
pub fn weight_of(k: usize) -> u32
    ensures value { result ≡ weight k }
    ensures bound { result ≤ 1000 }
{
    match k {
        2 => 1000,
        3 => 200,
        4 => 50,
        5 => 10,
        6 => 3,
        _ => 1,
    }
}

// What a rule gives, by its look before and its look on the side.
pub fn gain_of(before: Look, there: Look) -> u32
    ensures value { result ≡ gain_of before there }
    ensures bound { result ≤ 1000 }
{
    match (before, there) {
        (Look::Open(j), Look::Open(k)) => { if k < j { weight_of(k) } else { 0 } }
        _ => 0,
    }
}
