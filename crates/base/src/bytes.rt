// Bytes compared.
ghost use Rattle.std.specs.Prelude.{◌≡◌};
ghost use Rattle.base.specs.Bytes.{same_bytes};

// Whether two slices have the same bytes.
#[tactic(auto, using(crate::proofs::SameBytes::pointwise_same))]
pub fn are_same(a: &[u8], b: &[u8]) -> bool
    ensures { result ≡ same_bytes a.now b.now }
{
    a == b
}
