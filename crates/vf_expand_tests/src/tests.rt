//! Pages whose steps were worked out by hand.

mod files;
mod lacks;
mod packets;
mod shown;
mod stops;
