//! Files with the bytes that they are to have, and read again.
mod cuts;
mod documents;
mod fonts;
mod packed_fonts;
mod samples;
mod virtual_fonts;
