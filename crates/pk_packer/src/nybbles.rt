//! Nybbles, joined into bytes.

ghost use Rattle.std.specs.Prelude.{◌≡◌, ◌<◌, ◌≤◌, ◌/◌, ◌%◌, ◌++◌, ◌∷◌, [], OnOk, IfOk};
ghost use Rattle.pk_packer.specs.Spelling.{HoldNybbles};
ghost use Rattle.pk_packer.specs.Held.{nybbles_written};

use std::alloc::{AllocError as NoMemory, Global};

/// Nybbles that were written: whole bytes, and the first half of the next one, if it is there.
#[derive(Drop)]
pub struct Nybbles {
    pub bytes: Vec<u8>,
    pub half: bool,
    pub high: u8,
}

impl Nybbles {
    /// No nybbles, with room for `size` bytes.
    pub fn new(alloc: Global, size: usize) -> Result<Nybbles, NoMemory>
        ensures empty { IfOk result (λ n. nybbles_written n ≡ []) }
        ensures high { IfOk result (λ n. n.high < 16) }
    {
        Ok(Nybbles {
            bytes: Vec::with_capacity(alloc, size)?,
            half: false,
            high: 0,
        })
    }

    /// Writes a nybble.
    pub fn push(&mut self, nybble: u8) -> Result<(), NoMemory>
        requires small { nybble < 16 }
        requires high { self.old.high < 16 }
        ensures written { OnOk result (nybbles_written self.new
            ≡ nybbles_written self.old ++ nybble ∷ []) }
        ensures high { self.new.high < 16 }
    {
        if self.half {
            self.bytes.push(16 * self.high + nybble)?;
            self.half = false;
        } else {
            self.high = nybble;
            self.half = true;
        }
        Ok(())
    }

    /// Writes the two nybbles of a byte.
    pub fn push_byte(&mut self, byte: u8) -> Result<(), NoMemory>
        requires { self.old.high < 16 }
        ensures written { OnOk result (nybbles_written self.new
            ≡ nybbles_written self.old ++ (byte / 16) ∷ (byte % 16) ∷ []) }
        ensures high { self.new.high < 16 }
    {
        if self.half {
            self.bytes.push(16 * self.high + byte / 16)?;
            self.high = byte % 16;
            return Ok(());
        }
        self.bytes.push(byte)?;
        Ok(())
    }

    /// Writes three zeros and the four digits of a number, to base sixteen.
    #[inline(always)]
    pub fn push_four(&mut self, value: u16) -> Result<(), NoMemory>
        requires { self.old.high < 16 }
        ensures written { OnOk result (nybbles_written self.new
            ≡ nybbles_written self.old ++ 0 ∷ 0 ∷ 0 ∷ (value / 4096) ∷ (value / 256 % 16)
            ∷ (value / 16 % 16) ∷ (value % 16) ∷ []) }
        ensures high { self.new.high < 16 }
    {
        if self.half {
            let (upper, lower) = ((value / 256) as u8, (value % 256) as u8);
            self.bytes
                .extend_from_slice(&[16 * self.high, 0, upper, lower])?;
            self.half = false;
            return Ok(());
        }
        let (upper, lower) = ((value / 4096) as u8, (value / 16 % 256) as u8);
        self.bytes.extend_from_slice(&[0, upper, lower])?;
        self.high = (value % 16) as u8;
        self.half = true;
        Ok(())
    }

    /// The bytes; a nybble left over is 0.
    pub fn finish(self) -> Result<Vec<u8>, NoMemory>
        requires { self.high < 16 }
        ensures { IfOk result (λ bytes. HoldNybbles bytes.items (nybbles_written self)) }
    {
        let Nybbles {
            mut bytes,
            half,
            high,
        } = self;
        if half {
            bytes.push(16 * high)?;
        }
        Ok(bytes)
    }
}
