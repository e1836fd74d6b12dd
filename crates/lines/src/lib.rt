// Lines of text: numbers, units, refusals and placements, laid out on a page.
// Knows refusals, unit words and result records; gives each line of the answers, and its contracts say what the line is.
#![tactic(auto)]

pub mod answer;
pub mod placing;
pub mod slices;
pub mod text;
