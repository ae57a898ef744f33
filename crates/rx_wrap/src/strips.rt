//! What stands in a text behind a front.

ghost use Rattle.std.specs.Prelude.{◌≡◌, option_copied};
ghost use Rattle.rx_wrap.specs.Cuts.{begins, stripped};

/// Whether a text begins with a front.
pub(crate) fn begins(text: &str, front: &[u8]) -> bool
    ensures { result ≡ begins text.now front.now }
{
    text.as_bytes().starts_with(front)
}

/// What stands behind a front, where a text begins with it.
pub(crate) fn stripped<'a>(front: &str, text: &'a str) -> Option<&'a str>
    ensures { option_copied result ≡ stripped front.now text.now }
{
    text.strip_prefix(front)
}
