//! Reads an input.
ghost use Rattle.std.specs.Prelude.{◌≡◌, ◌+◌, ◌++◌, ◌<◌, ◌≤◌, IfOk, IsErr, IsErrOf, OnOk, drop, length, take};
ghost use Rattle.std.specs.Io.KnownBytes.{Consumes, IsAtEnd, ReadConsumes};
ghost use Rattle.outside.specs.Counts.{HasCause};
ghost use Rattle.outside.specs.Streams.{Takes};
ghost use Rattle.dvi_run.specs.Reading.{ReadsGave, MAX_READ, input_change};
ghost use Rattle.dvi_run.specs.declared.reading.ReadStop.TheVariants.{Failed as HasFailed, NoMemory};

use outside::{Failed, Input};
use std::alloc::{AllocError, Global};

// One byte more than a document may have.
const MAX_INPUT_READ: usize = 67_108_865;

// How much room a first read has, in bytes.
const PIECE: usize = 65_536;

/// Why an input was not read.
#[derive(Clone, Copy, Debug, PartialEq, Eq)]
pub enum ReadStop {
    Failed,
    NoMemory,
}

impl From<Failed> for ReadStop {
    ghost from_gives = { λ _ e. e ≡ HasFailed };

    fn from(_error: Failed) -> ReadStop {
        ReadStop::Failed
    }
}

impl From<AllocError> for ReadStop {
    ghost from_gives = { λ _ e. e ≡ NoMemory };

    fn from(_error: AllocError) -> ReadStop {
        ReadStop::NoMemory
    }
}

// Reads into the room after the first `len` bytes.
fn read_after<I: Input>(input: &mut I, bytes: &mut [u8], len: usize) -> Result<usize, Failed>
    requires { len < length bytes.old }
    ensures kept { take len bytes.new ≡ take len bytes.old }
    ensures bound { IfOk result (λ n. len + n ≤ length bytes.new) }
    ensures bytes { ReadConsumes (I.left input.old) (I.left input.new) result (drop len bytes.new) }
    ensures taken { Takes (I.taken input.old) (I.taken input.new) (I.ended input.new) result
        (drop len bytes.new) }
    ensures cause { HasCause (I.faults input.old) (I.faults input.new) (IsErr result) }
{
    input.read(&mut bytes[len..])
}

// Makes room after the first `len` bytes: twice as much as is used.
fn make_room(bytes: &mut Vec<u8>, len: usize) -> Result<(), AllocError>
    requires inside { len ≤ length bytes.old.items }
    requires few { length bytes.old.items ≤ MAX_READ }
    requires below { len < MAX_READ }
    ensures kept { take len bytes.new.items ≡ take len bytes.old.items }
    ensures few { length bytes.new.items ≤ MAX_READ }
    ensures room { OnOk result (len < length bytes.new.items) }
{
    if bytes.len() == len {
        bytes.resize((2 * len).max(PIECE).min(MAX_INPUT_READ), 0u8)?;
    }
    Ok(())
}

// Reads more after the first `len` bytes.
fn read_more<I: Input>(input: &mut I, bytes: &mut Vec<u8>, len: usize) -> Result<usize, ReadStop>
    requires inside { len ≤ length bytes.old.items }
    requires few { length bytes.old.items ≤ MAX_READ }
    requires below { len < MAX_READ }
    ensures kept { take len bytes.new.items ≡ take len bytes.old.items }
    ensures few { length bytes.new.items ≤ MAX_READ }
    ensures bound { IfOk result (λ n. len + n ≤ length bytes.new.items) }
    ensures bytes { IfOk result (λ n. Consumes (I.left input.old) (I.left input.new)
        (take n (drop len bytes.new.items)) × (n ≡ 0 → IsAtEnd (I.left input.new))) }
    ensures taken { IfOk result (λ n.
        (I.taken input.new ≡ I.taken input.old ++ take n (drop len bytes.new.items))
        × (n ≡ 0 → I.ended input.new)) }
    ensures cause { HasCause (I.faults input.old) (I.faults input.new)
        (IsErrOf result ReadStop.Failed) }
{
    make_room(bytes, len)?;
    Ok(read_after(input, bytes, len)?)
}

/// Reads to the end, or until there are more bytes than a document may have.
pub fn read_all<I: Input>(alloc: Global, input: &mut I) -> Result<Vec<u8>, ReadStop>
    ensures bytes { IfOk result (λ bytes. ReadsGave
        (input_change I.left I.taken I.ended I.faults input.old input.new) bytes.items) }
    ensures cause { HasCause (I.faults input.old) (I.faults input.new)
        (IsErrOf result ReadStop.Failed) }
{
    let mut bytes = Vec::new(alloc);
    let mut len: usize = 0;
    while len < MAX_INPUT_READ {
        let n = read_more(input, &mut bytes, len)?;
        if n == 0 {
            bytes.truncate(len);
            return Ok(bytes);
        }
        len += n;
    }
    bytes.truncate(len);
    Ok(bytes)
}
