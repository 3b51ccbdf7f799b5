//! A page that was drawn.
use raster_page::Page;
use vf_expand::Lack;

/// A page that was drawn whole, and what it lacks, of lacks with an equal fault the first.
#[derive(Drop)]
pub struct Drawn {
    pub page: Page,
    pub lacks: Vec<Lack>,
}
