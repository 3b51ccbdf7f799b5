//! Workers that draw pages at once, over one cache of fonts. A worker with a seat at the cache is a
//! desk: it answers each look from the cache, or loads the font from its own source of font files.
#![tactic(auto)]

mod bells;
mod bench;
mod claiming;
mod counting;
mod drawing;
mod handing;
mod held_fonts;
mod job;
mod keeping;
pub mod laws;
mod page_desk;
pub mod rings;
mod round;
mod seating;
mod settling;
pub mod spare_pages;
mod taking;
mod threads;
mod worker;

pub use bench::Bench;
pub use handing::hand_round;
pub use job::{Job, PageRange};
pub use page_counter::{CounterSeat, PageCounter};
pub use round::{MAX_WORKERS, draw_round};
pub use seating::{join_all, seat_all};
pub use spare_pages::drop_spare_pages;
pub use taking::PageTaker;
pub use worker::{PageResult, Worker};
