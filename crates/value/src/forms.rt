ghost use Rattle.std.specs.Prelude.{◌≡◌, ◌^◌, ◌≤◌, [], ◌∷◌, map, pos, neg_ℤ};
ghost use Rattle.std.specs.Option.{option_map};
ghost use Rattle.std.specs.Fmt.{signed_decimal};
ghost use Rattle.text.specs.Line.{spelt, added};
ghost use Rattle.text.specs.Tokens.{seen};
ghost use Rattle.value.specs.Counts.{integer};
ghost use Rattle.value.specs.Forms.{tagged, tagged_part, lone};

use crate::codes::Fault;
use itoa::Buffer;
use text::{Line, Token, number};

// The part of `(L PART)`, where the tokens are those of the letter's form.
pub fn part_after<'a>(letter: u8, tokens: &[Token<'a>]) -> Option<&'a [u8]>
    ensures { option_map (λ x. x.now) result ≡ tagged_part letter (map seen tokens.now) }
{
    match tokens {
        [
            Token::Mark(b'('),
            Token::Word([l]),
            Token::Mark(b' '),
            Token::Number(part) | Token::Word(part),
            Token::Mark(b')'),
        ] if *l == letter => Some(part),
        _ => None,
    }
}

// Whether the tokens are those of `(e)`.
pub fn is_blank(tokens: &[Token]) -> bool
    ensures { result ≡ lone 101 (map seen tokens.now) }
{
    matches!(
        tokens,
        [Token::Mark(b'('), Token::Word(b"e"), Token::Mark(b')')]
    )
}

// The number that the part writes, with a minus in front of one below 0.
pub fn read_integer(part: &[u8]) -> Result<i32, Fault>
    ensures { result ≡ integer part.now }
{
    let Some(digits) = part.strip_prefix(b"-") else {
        let n = number(part).ok_or(Fault::Form)?;
        return i32::try_from(n).map_err(|_| Fault::Bound);
    };
    match number(digits) {
        None | Some(0) => Err(Fault::Form),
        Some(n) => i32::try_from(-i128::from(n)).map_err(|_| Fault::Bound),
    }
}

// `(`, the letter and a space.
pub fn opened(letter: u8) -> Line
    ensures { spelt result ≡ 40 ∷ letter ∷ 32 ∷ [] }
{
    let mut line = Line::new();
    line.extend(&[b'(', letter, b' ']);
    line
}

// `(n Z)`.
#[tactic(auto, using(crate::proofs::Writing::closing_count))]
pub fn spell_integer(z: i32) -> Line
    ensures { spelt result ≡ tagged 110 (signed_decimal z) }
{
    let mut line = opened(b'n');
    line.extend(Buffer::new().format(z).as_bytes());
    line.push(b')');
    line
}
