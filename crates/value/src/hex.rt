ghost use Rattle.std.specs.Prelude.{◌≡◌, ◌<◌};
ghost use Rattle.std.specs.Char.{digit_char};
ghost use Rattle.text.specs.Line.{spelt, added};
ghost use Rattle.value.specs.Hex.{hex, hexed, hex_digit_of};

use text::Line;

// What a byte counts for as a digit.
// kept: `to_digit` reads capital letters too.
fn digit(b: u8) -> Option<u32>
    ensures { result ≡ hex_digit_of b }
{
    match b {
        b'0'..=b'9' => Some(u32::from(b - b'0')),
        b'a'..=b'f' => Some(u32::from(b - b'a' + 10)),
        _ => None,
    }
}

// The number that eight digits write.
#[tactic(auto, using(crate::proofs::HexReading::no_hex))]
pub fn read_hex(part: &[u8]) -> Option<u32>
    ensures { result ≡ hexed part.now }
{
    if part.len() != 8 {
        return None;
    }
    let mut n: u32 = 0;
    for b in part {
        let d = digit(*b)?;
        n = n * 16 + d;
    }
    Some(n)
}

// The digit that counts for so much.
// kept: `char::from_digit` gives an `Option<char>`, to take apart and to cast to a byte.
fn digit_byte(d: u8) -> u8
    requires { d < 16 }
    ensures { result ≡ digit_char d }
{
    if d < 10 { b'0' + d } else { b'a' + (d - 10) }
}

// The last `k` digits of the number.
#[tactic(auto, using(crate::proofs::Writing::hex_more, crate::proofs::Writing::hex_one))]
fn push_digits(line: &mut Line, k: u8, n: u32)
    requires { 0 < k }
    ensures { spelt line.new ≡ added (spelt line.old) (hex k n) }
{
    if k > 1 {
        push_digits(line, k - 1, n / 16);
    }
    line.push(digit_byte((n % 16) as u8));
}

// The number's eight digits.
pub fn push_hex(line: &mut Line, n: u32)
    ensures { spelt line.new ≡ added (spelt line.old) (hex 8 n) }
{
    push_digits(line, 8, n);
}
