//! The test of keys.
ghost use Rattle.std.specs.Prelude.{◌≡◌, nat_eq};
ghost use Rattle.std.specs.Cmp.Lexicographic.{pointwise};
ghost use Rattle.cache_core.specs.Machine.{key_eq};

use outside::FontKey;

// Names of at most so many bytes are compared byte by byte, which takes less than a call that is
// made for long ones.
const SHORT: usize = 16;

// Whether two names are one.
#[inline(always)]
fn same_name(a: &[u8], b: &[u8]) -> bool
    ensures { result ≡ pointwise nat_eq a.now b.now }
{
    if a.len() != b.len() || a.len() > SHORT {
        return a == b;
    }
    for i in 0..a.len() {
        if a[i] != b[i] {
            return false;
        }
    }
    true
}

/// Whether two keys are one. Their numbers are compared before their names.
#[tactic(auto, using(crate::proofs::SameKeys::numbers_first))]
#[inline(always)]
pub fn same_key(a: &FontKey, b: &FontKey) -> bool
    ensures { result ≡ key_eq a.now b.now }
{
    a.size == b.size
        && a.design == b.design
        && a.area == b.area
        && same_name(a.name.bytes(), b.name.bytes())
}
