// Turns: one storage is placed, after those before it in the file.
// Knows the places and the slots by their promises; gives the slot that a storage joins, and its turn, which notes where it lies.
#![tactic(auto)]

pub mod ledger;
pub mod marks;
pub mod relations;
pub mod turn;
