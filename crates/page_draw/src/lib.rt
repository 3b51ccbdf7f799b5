//! One page over any desk of fonts: the expander's flat commands move the pen, and its marks are
//! set on the sheet. `PlainDesk` is a desk that loads and decodes a font each time it is asked for
//! one, and `SoloDesk` keeps fonts in a cache.
#![tactic(auto)]

mod drawing;
mod drawn;
pub mod examples;
mod flats;
mod indexed_page;
mod keeping;
mod lacks;
pub mod laws;
mod plain_desk;
mod sheet;
mod solo_desk;
mod stop;

pub use drawing::{draw, draw_on};
pub use drawn::Drawn;
pub use indexed_page::IndexedPage;
pub use plain_desk::PlainDesk;
pub use sheet::Sheet;
pub use solo_desk::SoloDesk;
pub use stop::PageStop;
