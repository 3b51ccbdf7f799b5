//! A page's own copies of the keys of its fonts.
ghost use Rattle.std.specs.Prelude.{◌≡◌, IfOk, IsTrue};
ghost use Rattle.std.specs.Arc.{arc_value};

use cache_core::laws::histories;
use cache_core::same_key;
use outside::FontKey;
use std::alloc::{AllocError as NoMemory, Global};
use std::collections::BTreeSet;
use std::sync::Arc;

/// The keys that became current on the page or in a packet. Each is copied once, so that the page's
/// characters share no count with another page's, and a font change allocates nothing more.
#[derive(Drop)]
pub struct PageKeys {
    alloc: Global,
    keys: BTreeSet<Arc<FontKey>>,
    // The one with which the packet that was entered last began: all packets of a virtual font
    // begin with one font.
    first: Option<Arc<FontKey>>,
}

// Whether two keys are one.
#[inline(always)]
fn is_key(a: &FontKey, b: &FontKey) -> bool
    ensures { IsTrue result → a.now ≡ b.now }
{
    // For the proof: keys that pass the test are equal.
    histories();
    same_key(a, b)
}

impl PageKeys {
    /// No key.
    pub fn new(alloc: Global) -> PageKeys {
        PageKeys {
            alloc,
            keys: BTreeSet::new(alloc),
            first: None,
        }
    }

    /// The page's own copy of a key.
    pub fn own(&mut self, key: &Arc<FontKey>) -> Result<Arc<FontKey>, NoMemory>
        ensures { IfOk result (λ own. arc_value own ≡ arc_value key.now) }
    {
        if let Some(own) = self.keys.get(key) {
            return Arc::try_clone(own);
        }
        let own = Arc::new(self.alloc, FontKey::clone(key)?)?;
        self.keys.insert(Arc::try_clone(&own)?)?;
        Ok(own)
    }

    /// The page's own copy of the key of the font that a packet begins with.
    pub fn own_first(&mut self, key: &Arc<FontKey>) -> Result<Arc<FontKey>, NoMemory>
        ensures { IfOk result (λ own. arc_value own ≡ arc_value key.now) }
    {
        if let Some(first) = &self.first {
            if is_key(first, key) {
                return Arc::try_clone(first);
            }
        }
        let own = self.own(key)?;
        self.first = Some(Arc::try_clone(&own)?);
        Ok(own)
    }
}
