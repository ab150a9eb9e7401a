ghost use Rattle.std.specs.Prelude.{◌≡◌, ◌+◌, ◌≤◌, [], ◌∷◌, not, length, ◌==◌, MatchOption, IfSome};
ghost use Rattle.std.specs.List.{prefix_len};
ghost use Rattle.text.specs.Cut.{cut};

// How many bytes stand before the first `d`; all of them where there is none.
pub fn before(d: u8, bytes: &[u8]) -> usize
    ensures within { result ≤ length bytes.now }
    ensures value { result ≡ prefix_len (λ b. not (b == d)) bytes.now }
{
    bytes.iter().take_while(|b| **b != d).count()
}

// The piece before the first `d`, and what follows that `d`; nothing where there is none.
#[tactic(auto, using(crate::proofs::Pieces::piece_first, crate::proofs::Pieces::cut_last))]
pub fn split_once(d: u8, bytes: &[u8]) -> Option<(&[u8], &[u8])>
    ensures pieces { MatchOption result (cut d bytes.now ≡ bytes.now ∷ []) (λ r. cut d bytes.now ≡ r.0.now ∷ cut d r.1.now) }
    ensures lengths { IfSome result (λ r. length r.0.now + 1 + length r.1.now ≡ length bytes.now) }
{
    let n = before(d, bytes);
    if n == bytes.len() {
        return None;
    }
    Some((&bytes[..n], &bytes[n + 1..]))
}
