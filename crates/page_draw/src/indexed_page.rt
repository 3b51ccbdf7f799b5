//! A page of a document.
use page_index::Index;

/// A page of a document, by its number, from 0.
#[derive(Clone, Copy)]
pub struct IndexedPage<'a> {
    pub index: &'a Index<'a>,
    pub number: usize,
}
