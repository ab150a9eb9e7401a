ghost use Rattle.std.specs.Prelude.{◌≡◌};
ghost use Rattle.std.specs.Option.{option_map};
ghost use Rattle.text.specs.Frame.{framed as between};

// What stands between the text at the line's front and the line's closing bracket.
#[tactic(auto, using(crate::proofs::Frames::unframed, crate::proofs::Frames::closed))]
pub fn framed<'a>(line: &'a [u8], head: &[u8]) -> Option<&'a [u8]>
    ensures { option_map (λ x. x.now) result ≡ between head.now line.now }
{
    line.strip_prefix(head)?.strip_suffix(b")")
}
