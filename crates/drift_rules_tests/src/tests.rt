//! A pen that takes commands, where a unit is half a dot: what it answers, and where it stands.
mod characters;
mod depths;
mod moves;
mod packets;
mod rules;
mod script;
mod stack;
