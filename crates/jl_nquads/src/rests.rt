//! The rest of a text.
ghost use Rattle.std.specs.Prelude.{◌≡◌, ◌≤◌, length, drop};

/// The bytes from this place on.
#[inline(always)]
#[tactic(auto, using(std::proofs::lemmas::List::take_rest))]
pub(crate) fn rest_of(text: &[u8], at: usize) -> &[u8]
    requires { at ≤ length text.now }
    ensures { result.now ≡ drop at text.now }
{
    &text[at..]
}
