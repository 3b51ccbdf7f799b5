//! What the cache asks of the values that it keeps.

/// A value that the cache may keep. It has a weight in bytes, and proofs know for which keys it
/// stands.
pub trait Stands: Drop {
    ghost use Rattle.std.specs.Prelude.{◌≡◌, ℕ};
    ghost use Rattle.outside.specs.declared.keys.FontKey.{FontKey};
    ghost use Rattle.cache_core.specs.declared.common.Common.{Common};

    /// When a value stands for a key in a common part, as a font's decoding does for its key.
    ghost stands_for: { Self → FontKey → Common → Type 0 };

    /// How many bytes a value weighs.
    ghost weighs: { Self → ℕ };

    /// How many bytes this value weighs.
    fn weight(&self) -> u64
        ensures { result ≡ weighs self.now };
}
