//! Commands read, refused, passed over and written, with values worked out by hand.
mod page_rows;
mod passing;
mod reading;
mod refusals;
mod shown;
mod writing;
