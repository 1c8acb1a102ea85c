// A store that is handed in: what both sides of a variable share can clash, which it never does over tables.
ghost use Rattle.std.specs.Prelude.{◌≡◌};
ghost use Rattle.lookahead_tests.specs.Contrary.{look_by, contrary, contrary_laws};

use stores::{Look, Refusal, Rules, is_partial};

#[derive(Drop)]
pub struct Contrary {}

fn look_by(a: u8, b: u8, c: u8, d: u8) -> Look
    ensures { result ≡ look_by a b c d }
{
    match (a, b, c, d) {
        (0, 0, _, _) => Look::Open(2),
        (0, _, _, _) => Look::Broken,
        (_, 0, _, _) => Look::Forces(2),
        (_, _, 0, 0) => Look::Open(2),
        _ => Look::Broken,
    }
}

impl Rules for Contrary {
    ghost means = { λ _. contrary };

    ghost laws = { contrary_laws };

    fn variables(&self) -> usize {
        4
    }

    fn rules(&self) -> usize {
        1
    }

    fn look(&self, rule: usize, partial: &[u8]) -> Result<Look, Refusal> {
        if rule == 1 && is_partial(partial, 4) {
            Ok(look_by(partial[0], partial[1], partial[2], partial[3]))
        } else {
            Err(Refusal::Unfit)
        }
    }
}
