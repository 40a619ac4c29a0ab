// The head of a capture: mark and version.
ghost use Rattle.std.specs.Prelude.{◌≡◌};
ghost use Rattle.capture.specs.Capture.{body_of};

use crate::HEAD_BYTES;

// The mark LOC, then version 1, high byte first.
pub(crate) const HEAD: [u8; HEAD_BYTES] = [b'L', b'O', b'C', 0, 1];

// What stands behind a good head; behind a bad one, nothing.
#[tactic(auto, using(crate::proofs::HeadLaws::no_body, crate::proofs::HeadLaws::body_there))]
pub fn body(capture: &[u8]) -> &[u8]
    ensures { result.now ≡ body_of capture.now }
{
    capture.strip_prefix(&HEAD).unwrap_or(&[])
}
