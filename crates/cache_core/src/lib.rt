//! The machine of the shared font cache: which fonts are resident, which seats have claimed a key,
//! and what a look, a fill and a release do to them. Looks that found their fonts may be noted
//! together, later. There is no lock and no thread here: the caller has the state to itself, and a
//! turn lock above hands it from seat to seat. The state keeps the whole history of its calls, so
//! that every answer that a seat was given can be judged afterwards.
#![tactic(auto)]

mod calls;
mod claims;
mod common;
mod entry;
pub mod examples;
mod filling;
mod fonts;
mod ghost_common;
mod hits;
mod key_test;
mod keys;
pub mod laws;
mod limits;
mod looking;
mod stands;
mod state;
mod told;

pub use calls::{Call, Done};
pub use common::Common;
pub use entry::{Act, Entry, Fill, Filling, Look, WeighedFill};
pub use ghost_common::GhostCommon;
pub use key_test::same_key;
pub use keys::Keys;
pub use limits::Limits;
pub use stands::Stands;
pub use state::CacheState;
pub use told::Told;
