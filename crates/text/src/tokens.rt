ghost use Rattle.std.specs.Prelude.{◌≡◌, ◌<◌, ◌≤◌, Bool, [], ◌∷◌, map, length, MatchOption, IfSome};
ghost use Rattle.std.specs.List.{prefix_len};
ghost use Rattle.text.specs.Tokens.{figure, atom, seen, lexed, tokens};

use crate::token::Token;
use arrayvec::ArrayVec;

fn is_figure(b: u8) -> bool
    ensures { result ≡ figure b }
{
    b.is_ascii_digit() || b == b'-'
}

fn is_atom(b: u8) -> bool
    ensures { result ≡ atom b }
{
    is_figure(b) || b.is_ascii_lowercase()
}

// How many bytes of parts stand at the front.
fn atoms(s: &[u8]) -> usize
    ensures within { result ≤ length s.now }
    ensures value { result ≡ prefix_len atom s.now }
{
    s.iter().take_while(|b| is_atom(**b)).count()
}

// The first token and what follows it, if there are bytes.
fn next(bytes: &[u8]) -> Option<(Token<'_>, &[u8])>
    ensures lexes { MatchOption result (bytes.now ≡ []) (λ r. lexed bytes.now ≡ seen r.0 ∷ lexed r.1.now) }
    ensures falls { IfSome result (λ r. length r.1.now < length bytes.now) }
{
    let (first, others) = bytes.split_first()?;
    if !is_atom(*first) {
        return Some((Token::Mark(*first), others));
    }
    let (part, rest) = bytes.split_at(atoms(bytes));
    if is_figure(*first) {
        Some((Token::Number(part), rest))
    } else {
        Some((Token::Word(part), rest))
    }
}

// The tokens of the bytes. Past 23 of them the rest is one token.
pub fn lex(bytes: &[u8]) -> ArrayVec<Token<'_>, 24>
    ensures { map seen result.items ≡ tokens bytes.now }
{
    let mut all = ArrayVec::new();
    let mut rest = bytes;
    while all.len() < 23 {
        let Some((token, after)) = next(rest) else {
            return all;
        };
        all.push(token);
        rest = after;
    }
    if !rest.is_empty() {
        all.push(Token::Rest(rest));
    }
    all
}
