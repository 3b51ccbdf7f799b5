//! Keys in an order.
ghost use Rattle.std.specs.Prelude.{◌≡◌, map};
ghost use Rattle.std.specs.Arc.{arc_value};

use outside::FontKey;
use std::marker::Model;
use std::sync::Arc;

/// Keys of fonts, in an order. Contracts see them as a list.
#[derive(Drop)]
pub struct Keys {
    list: Vec<Arc<FontKey>>,
}

impl Model for Keys {
    ghost use Rattle.std.specs.Prelude.{List, map};
    ghost use Rattle.std.specs.Arc.{arc_value};
    ghost use Rattle.outside.specs.declared.keys.FontKey.{FontKey};
    ghost use Rattle.cache_core.specs.KeyCodes.{keys_code};

    ghost Value = { List FontKey };

    ghost coded = { keys_code };

    ghost view = { λ s. map arc_value s.list.items };
}

impl Keys {
    /// These keys, in this order.
    pub fn new(list: Vec<Arc<FontKey>>) -> Keys
        ensures { result ≡ map arc_value list.items }
    {
        Keys { list }
    }

    /// The keys, in their order.
    pub fn keys(&self) -> &[Arc<FontKey>]
        ensures { map arc_value result.now ≡ self.now }
    {
        &self.list
    }
}
