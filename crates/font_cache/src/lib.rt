//! The font cache that seats share: the cache's machine in a turn lock. Each look, fill and release
//! is one turn, and so are several looks that are noted together; nothing else is done while the
//! turn is held. What a seat is answered is what the machine answers after the history that the
//! seat has then seen, which continues what it had seen before.
#![tactic(auto)]

mod cache;
pub mod laws;

pub use cache::{CacheSeat, FontCache};
