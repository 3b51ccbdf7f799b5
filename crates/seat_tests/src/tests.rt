//! Seats that take turns, claim pages and share a cache: on one thread, on two and on many.
ghost use Rattle.std.specs.Prelude.{◌≡◌, IfOk};
ghost use Rattle.std.specs.Arc.{arc_value};

mod caches;
mod claims;
mod hits;
mod machine;
mod turns;

use cache_core::Stands;
use outside::{FontKey, FontName};
use std::alloc::{AllocError as NoMemory, Global};
use std::sync::Arc;
use std::sync::atomic::{AtomicU32, Ordering};
use std::thread;

// A font that stands for keys of its size. Its number says which one of them it is, and what it
// weighs.
#[derive(Drop)]
struct Sized {
    size: u32,
    number: u32,
}

impl Stands for Sized {
    ghost use Rattle.std.specs.Prelude.{◌≡◌};

    ghost stands_for = { λ font k part. font.size ≡ k.size };

    ghost weighs = { λ font. font.number };

    fn weight(&self) -> u64 {
        u64::from(self.number)
    }
}

fn key_of(alloc: Global, name: &[u8], size: u32) -> Result<Arc<FontKey>, NoMemory>
    ensures { IfOk result (λ key. (arc_value key).size ≡ size) }
{
    let key = FontKey {
        area: 0,
        name: FontName::new(alloc, name)?,
        size,
        design: 128,
    };
    Ok(Arc::new(alloc, key)?)
}

// Waits until all threads have come, and says whether they came.
fn meet(gate: &AtomicU32, all: u32) -> bool {
    gate.fetch_add(1, Ordering::SeqCst);
    for _ in 0..1_000_000u32 {
        if gate.load(Ordering::SeqCst) >= all {
            return true;
        }
        thread::yield_now();
    }
    false
}
