// The fields of records: numbers in bytes, their ranges, and what each operation takes.
// Knows bytes; gives the tail of a file at a record, the verdict on a record's own numbers, and the one table of fields with the verdict on an operand.
#![tactic(auto)]

pub mod bytes;
pub mod ranges;
pub mod table;
