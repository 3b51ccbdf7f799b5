//! A VF file that was read.
ghost use Rattle.std.specs.Prelude.{◌≡◌, MatchOption, None, Some, slice_get};
ghost use Rattle.std.specs.Option.{option_map};
ghost use Rattle.vf_reader.specs.Fonts.{packet_of};
ghost use Rattle.vf_reader.specs.Locals.{local_with};
ghost use Rattle.vf_reader.specs.Weights.{packets_weight};

use crate::LocalDef;
use crate::local_table::LocalTable;
use crate::packet_table::{PacketTable, Span};
use std::marker::Model;

/// The packets and the local fonts of a virtual font. A contract sees it as the file's bytes, where
/// its packets are in them, and the local fonts in the order of the file; `packet_of` says which
/// packet a code has.
#[derive(Drop)]
pub struct VfFont {
    pub(crate) bytes: Vec<u8>,
    pub(crate) packets: PacketTable,
    pub(crate) locals: LocalTable,
}

impl Model for VfFont {
    ghost use Rattle.std.specs.Prelude.{length};
    ghost use Rattle.vf_reader.specs.Fonts.{Virtual};
    ghost use Rattle.vf_reader.specs.Walked.{AreWithin};

    ghost Value = { Virtual };

    ghost view = { λ f. record { bytes = f.bytes.items; spans = f.packets; locals = f.locals } };

    ghost invariant = { λ f. AreWithin (length f.bytes.items) f.packets };
}

impl VfFont {
    /// The commands of a code: those of its last packet. `None` where no packet has the code.
    pub fn packet(&self, c: u32) -> Option<&[u8]>
        ensures { MatchOption result (packet_of self.now c ≡ None)
            (λ packet. packet_of self.now c ≡ Some packet.now) }
    {
        match self.packets.get(c) {
            Some(Span { start, end }) => Some(&self.bytes[start..end]),
            None => None,
        }
    }

    /// The bytes of the packets together, one for each code.
    pub fn weight(&self) -> u128
        ensures { result ≡ packets_weight self.now }
    {
        self.packets.weight()
    }

    /// The local font with a number.
    pub fn local(&self, k: i32) -> Option<&LocalDef>
        ensures { MatchOption result (local_with self.now.locals k ≡ None)
            (λ local. local_with self.now.locals k ≡ Some local.now) }
    {
        self.locals.get(k)
    }

    /// The local fonts in the order of the file, each number once.
    pub fn locals(&self) -> &[LocalDef]
        ensures { result.now ≡ self.now.locals }
    {
        self.locals.list()
    }

    /// The number of the first local font, which is current where a packet begins.
    pub fn first_local(&self) -> Option<i32>
        ensures { result ≡ option_map (λ local. local.number) (slice_get self.now.locals 0) }
    {
        match self.locals.list().first() {
            Some(local) => Some(local.number),
            None => None,
        }
    }
}
