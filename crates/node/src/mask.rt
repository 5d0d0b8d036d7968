// Masks of links: bit i is set when interface i is up.
ghost use Rattle.std.specs.Prelude.{◌≡◌, true, ◌-◌, ◌^◌, ◌<◌};
ghost use Rattle.base.specs.Bits.{has_bit};

// The link of interface i is up.
pub(crate) fn is_up(mask: u8, i: u8) -> bool
    requires { i < 8 }
    ensures { result ≡ has_bit mask i }
{
    (mask >> i) % 2 == 1
}

// The links up, less that of interface i, which is up.
pub(crate) fn others(mask: u8, i: u8) -> u8
    requires { has_bit mask i ≡ true }
    ensures { result ≡ mask - 2 ^ i }
{
    mask - (1 << i)
}
