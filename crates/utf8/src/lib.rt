// UTF-8 (RFC 3629).
#![tactic(auto)]

ghost use Rattle.std.specs.Prelude.{◌≡◌};
ghost use Rattle.utf8.specs.Utf8.{is_utf8};

use std::str;

// Whether `s` is UTF-8. Texts are nearly all short and ASCII: this test of them is compiled into the callers.
pub fn is_utf8(s: &[u8]) -> bool
    ensures { result ≡ is_utf8 s.now }
{
    s.iter().all(|b| *b < 0x80) || is_utf8_text(s)
}

// The same, for any bytes.
#[inline(never)]
fn is_utf8_text(s: &[u8]) -> bool
    ensures { result ≡ is_utf8 s.now }
{
    str::from_utf8(s).is_ok()
}
