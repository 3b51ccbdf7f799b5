//! Run lengths and repeat counts, read one by one.

/// A run length or a repeat count that was read.
#[derive(Clone, Copy)]
pub enum PackedNumber {
    Run(u64),
    Repeat(u64),
}

mod next;

pub use next::next_item;
