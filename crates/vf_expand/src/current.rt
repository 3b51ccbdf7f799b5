//! The current font.
ghost use Rattle.std.specs.Prelude.{◌≡◌};
ghost use Rattle.drift_rules.specs.Bounds.{IsSpace};
ghost use Rattle.vf_expand.specs.Course.{space};
ghost use Rattle.vf_expand.specs.Effects.{HasKey, value_of_current};

use font_decode::Decoded;
use outside::FontKey;
use std::sync::Arc;

/// The current font: none, one that was not looked up since it became current, or one with what was
/// found.
#[derive(Drop)]
pub enum Current {
    NoFont,
    Chosen(Arc<FontKey>),
    Known(Arc<FontKey>, Arc<Decoded>),
}

/// A sixth of the current font's size, in DVI units, and 0 where no font is current.
#[inline(always)]
pub fn space_of(current: &Current) -> i64
    requires { HasKey (value_of_current current.now) }
    ensures value { result ≡ space (value_of_current current.now) }
    ensures fits { IsSpace result }
{
    match current {
        Current::NoFont => 0,
        Current::Chosen(key) => i64::from(key.size / 6),
        Current::Known(key, _) => i64::from(key.size / 6),
    }
}

/// Whether the font was not looked up since it became current. No contract rests on it.
#[inline(always)]
pub fn is_chosen(current: &Current) -> bool {
    match current {
        Current::Chosen(_) => true,
        Current::NoFont | Current::Known(_, _) => false,
    }
}
