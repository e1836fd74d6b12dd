// What steps add to the graph, and the graph of what they added.
// Knows bit rows, unit words and the declared storages; gives the units that a written storage meets, the pairs of copies, the storages whose address is
// taken, and the interference of storages that follows.
#![tactic(auto)]

pub mod close;
pub mod meet;
pub mod members;
