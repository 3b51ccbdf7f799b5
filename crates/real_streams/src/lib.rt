//! Readers, writers, files and a folder of font files as the driver's outside. What their calls
//! gave and took is known of all of them, and each failure is counted.
#![tactic(auto)]

mod files;
mod folder;
mod fonts;
mod log;
mod logged_reader;
mod logged_writer;
mod opener;
mod reader;
mod writer;

pub use files::{FileInput, FileOutput};
pub use folder::{FolderFonts, FolderOpener};
pub use fonts::OpenedFonts;
pub use opener::Opener;
pub use reader::FromReader;
pub use writer::{Start, ToWriter, UsedWriter};
