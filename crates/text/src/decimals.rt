ghost use Rattle.std.specs.Prelude.{◌≡◌};
ghost use Rattle.text.specs.Number.{digit_of, numeral};

// What a byte counts for as a decimal digit.
fn digit(b: u8) -> Option<u64>
    ensures { result ≡ digit_of b }
{
    char::from(b).to_digit(10).map(u64::from)
}

// The number that the part writes, if it has one to ten digits and no needless zero in front.
pub fn number(part: &[u8]) -> Option<u64>
    ensures { result ≡ numeral part.now }
{
    if part.is_empty() || part.len() > 10 || part.len() > 1 && part[0] == b'0' {
        return None;
    }
    let mut n = 0;
    for b in part {
        n = n * 10 + digit(*b)?;
    }
    Some(n)
}
