// Whether bytes are a partial assignment.
ghost use Rattle.std.specs.Prelude.{◌≡◌, true};
ghost use Rattle.rules.specs.Literals.{Partial};
ghost use Rattle.stores.specs.Stores.{legal, is_partial};

// Every byte is 0, 1 or 2.
fn is_legal(bytes: &[u8]) -> bool
    ensures { result ≡ legal bytes.now }
{
    for b in bytes {
        if *b > 2 {
            return false;
        }
    }
    true
}

// Whether there is one byte from 0 to 2 for each variable.
pub fn is_partial(bytes: &[u8], vars: usize) -> bool
    ensures value { result ≡ is_partial vars bytes.now }
    ensures fits { result ≡ true → Partial vars bytes.now }
{
    if bytes.len() == vars {
        is_legal(bytes)
    } else {
        false
    }
}
