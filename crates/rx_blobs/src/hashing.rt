//! Texts that are hashed, and held against the digests that were asked for.

ghost use Rattle.std.specs.Prelude.{◌≡◌, ◌≢◌, Contains, IfNone, IfSome, length, map, true, false};
ghost use Rattle.rx_base.specs.Digests.{digest_of};

use rx_base::{Bytes, Digest, digest_of};

/// A blob with another digest than was asked for.
#[derive(Clone, Copy, Debug, PartialEq, Eq)]
pub(crate) struct Mismatch {
    pub(crate) expected: Digest,
    pub(crate) got: Digest,
}

/// Whether two digests are one.
pub(crate) fn is_same(digest: Digest, other: Digest) -> bool
    ensures same { result ≡ true → digest ≡ other }
    ensures differs { result ≡ false → digest ≢ other }
{
    digest == other
}

/// The first text whose digest isn't the one that was asked for.
pub(crate) fn first_mismatch(digests: &[Digest], texts: &[Bytes]) -> Option<Mismatch>
    requires { length texts.now ≡ length digests.now }
    ensures none { IfNone result (map digest_of texts.now ≡ digests.now) }
    ensures differ { IfSome result (λ bad. bad.expected ≢ bad.got) }
    ensures asked { IfSome result (λ bad. Contains digests.now bad.expected) }
    ensures some { IfSome result (λ bad. map digest_of texts.now ≢ digests.now) }
{
    let mut at = 0;
    while at < digests.len() {
        let expected = digests[at];
        let got = digest_of(texts[at].as_slice());
        if !is_same(expected, got) {
            return Some(Mismatch { expected, got });
        }
        at += 1;
    }
    None
}
