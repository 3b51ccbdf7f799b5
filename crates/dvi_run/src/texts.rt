//! The texts of the notes: each part is put after what was put before, and none takes memory.

pub mod document;
pub mod font;
pub mod name;
pub mod page;
pub mod virtual_font;
