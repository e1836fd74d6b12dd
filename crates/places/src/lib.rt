// Places: where a storage that joins no slot goes, and the room that it takes.
// Knows the maps and the storages by their promises; gives the choice of a place, or why there is none, the taking of its room, and how far up all is taken.
#![tactic(auto)]

pub mod choose;
pub mod memory;
