// Words that write numbers.
ghost use Rattle.std.specs.Prelude.{◌≡◌, ◌<◌, IfSome};
ghost use Rattle.reader.specs.Numerals.{digits_value, numeral, plain, negated, signed_numeral};

// At most nine digits.
fn digits(word: &[u8]) -> Option<u32>
    ensures value { result ≡ digits_value word.now }
    ensures small { IfSome result (λ v. v < 1000000000) }
{
    if word.len() > 9 {
        return None;
    }
    let mut value: u32 = 0;
    for b in word {
        if !b.is_ascii_digit() {
            return None;
        }
        value = value * 10 + (*b - b'0') as u32;
    }
    Some(value)
}

// A number is 0, or digits without a leading zero.
pub fn number(word: &[u8]) -> Option<u32>
    ensures value { result ≡ numeral word.now }
    ensures small { IfSome result (λ v. v < 1000000000) }
{
    match word {
        [] => None,
        [b'0', _, ..] => None,
        _ => digits(word),
    }
}

fn plain_of(value: Option<u32>) -> Option<i32>
    requires { IfSome value (λ v. v < 1000000000) }
    ensures { result ≡ plain value }
{
    value.map(|v| v as i32)
}

fn negated_of(value: Option<u32>) -> Option<i32>
    requires { IfSome value (λ v. v < 1000000000) }
    ensures { result ≡ negated value }
{
    value.filter(|v| *v != 0).map(|v| -(v as i32))
}

// A number, or a negative one after `-`; there is no `-0`.
pub fn signed_number(word: &[u8]) -> Option<i32>
    ensures { result ≡ signed_numeral word.now }
{
    match word {
        [b'-', rest @ ..] => negated_of(number(rest)),
        _ => plain_of(number(word)),
    }
}
