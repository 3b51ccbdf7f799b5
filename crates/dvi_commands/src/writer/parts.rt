//! Appending several parts at once.

ghost use Rattle.std.specs.Prelude.{◌≡◌, ◌<◌, ◌^◌, ◌++◌, length, OnErr, OnOk};
ghost use Rattle.dvi_commands.specs.Writing.{joined};

use std::alloc::AllocError as NoMemory;

// How many bytes the parts have.
fn total_length(parts: &[&[u8]]) -> usize
    requires { length (joined parts.now) < 2 ^ 64 }
    ensures { result ≡ length (joined parts.now) }
{
    let mut total = 0;
    for part in parts {
        total += part.len();
    }
    total
}

/// Appends all the parts, or none where memory runs out: the room for all is made at once.
pub(super) fn append(out: &mut Vec<u8>, parts: &[&[u8]]) -> Result<(), NoMemory>
    requires { length (joined parts.now) < 2 ^ 64 }
    ensures appended { OnOk result (out.new.items ≡ out.old.items ++ joined parts.now) }
    ensures unchanged { OnErr result (out.new.items ≡ out.old.items) }
{
    out.reserve(total_length(parts))?;
    for part in parts {
        out.extend_from_slice(part)?;
    }
    Ok(())
}
