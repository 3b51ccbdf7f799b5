//! The names of fonts and of files. A contract sees each as its bytes.
ghost use Rattle.std.specs.Prelude.{◌≡◌, IfOk, Some, nat_eq, refl};
ghost use Rattle.std.specs.Ordering.{nat_cmp};
ghost use Rattle.std.specs.Hash as fed;
ghost use Rattle.std.specs.Cmp.Lexicographic.{pointwise, slice_cmp, nat_list_eq_equiv, nat_list_cmp_total, texts_ties, texts_po};
ghost use Rattle.std.specs.Cmp.{partial_equiv_from_equiv};
ghost use Rattle.std.specs.Cmp.Rules.{hashing};
ghost use Rattle.std.proofs.Common.{rules};

use std::alloc::{AllocError as NoMemory, Global};
use std::cmp::Ordering;
use std::hash::{Hash, Hasher};
use std::marker::Model;

// The bytes of a name.
#[derive(Debug, Drop)]
struct NameBytes {
    bytes: Vec<u8>,
}

impl Model for NameBytes {
    ghost use Rattle.std.specs.Prelude.{ℕ, List};

    ghost Value = { List ℕ };

    ghost view = { λ n. n.bytes.items };
}

impl NameBytes {
    fn new(alloc: Global, bytes: &[u8]) -> Result<NameBytes, NoMemory>
        ensures { IfOk result (λ n. n ≡ bytes.now) }
    {
        Ok(NameBytes {
            bytes: bytes.to_vec(alloc)?,
        })
    }

    fn bytes(&self) -> &[u8]
        ensures { result.now ≡ self.now }
    {
        &self.bytes
    }
}

impl Clone for NameBytes {
    ghost is_clone = { λ a b. b ≡ a };

    fn clone(&self) -> Result<NameBytes, NoMemory> {
        Ok(NameBytes {
            bytes: self.bytes.clone()?,
        })
    }
}

impl PartialEq for NameBytes {
    ghost eq = { pointwise nat_eq };

    ghost laws = { partial_equiv_from_equiv nat_list_eq_equiv };

    fn eq(&self, other: &NameBytes) -> bool {
        self.bytes() == other.bytes()
    }
}

impl Eq for NameBytes {
    ghost laws = { nat_list_eq_equiv };
}

impl PartialOrd for NameBytes {
    ghost partial_cmp = { λ x y. Some (slice_cmp nat_cmp x y) };

    ghost laws = { texts_po };

    fn partial_cmp(&self, other: &NameBytes) -> Option<Ordering> {
        Some(self.cmp(other))
    }
}

impl Ord for NameBytes {
    ghost cmp = { slice_cmp nat_cmp };

    ghost total = { nat_list_cmp_total };

    ghost matches_partial_cmp = { λ x y. refl };

    ghost matches_eq = { texts_ties };

    fn cmp(&self, other: &NameBytes) -> Ordering {
        self.bytes().cmp(other.bytes())
    }
}

impl Hash for NameBytes {
    ghost hash_input = { fed.slice fed.u8 };

    ghost respects_eq = { Prim.search (hashing, rules) };

    fn hash<H: Hasher>(&self, state: &mut H) {
        self.bytes().hash(state);
    }
}

/// The name of a font, with its area first: the bytes that a font definition gives.
#[derive(Clone, Debug, Drop, PartialEq, Eq, PartialOrd, Ord, Hash)]
pub struct FontName {
    name: NameBytes,
}

impl Model for FontName {
    ghost use Rattle.std.specs.Prelude.{ℕ, List};

    ghost Value = { List ℕ };

    ghost view = { λ n. n.name };

    ghost inverse = { λ bytes. record { name = bytes } };
}

impl FontName {
    /// The name of these bytes.
    pub fn new(alloc: Global, bytes: &[u8]) -> Result<FontName, NoMemory>
        ensures { IfOk result (λ n. n ≡ bytes.now) }
    {
        Ok(FontName {
            name: NameBytes::new(alloc, bytes)?,
        })
    }

    /// The name's bytes.
    pub fn bytes(&self) -> &[u8]
        ensures { result.now ≡ self.now }
    {
        self.name.bytes()
    }
}

/// The name of a file in the folder of fonts.
#[derive(Clone, Debug, Drop, PartialEq, Eq, PartialOrd, Ord, Hash)]
pub struct FileName {
    name: NameBytes,
}

impl Model for FileName {
    ghost use Rattle.std.specs.Prelude.{ℕ, List};

    ghost Value = { List ℕ };

    ghost view = { λ n. n.name };

    ghost inverse = { λ bytes. record { name = bytes } };
}

impl FileName {
    /// The name of these bytes.
    pub fn new(alloc: Global, bytes: &[u8]) -> Result<FileName, NoMemory>
        ensures { IfOk result (λ n. n ≡ bytes.now) }
    {
        Ok(FileName {
            name: NameBytes::new(alloc, bytes)?,
        })
    }

    /// The name's bytes.
    pub fn bytes(&self) -> &[u8]
        ensures { result.now ≡ self.now }
    {
        self.name.bytes()
    }
}
