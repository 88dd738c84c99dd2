// What the programs that show the libraries share: the requests by the names of their kinds, ledgers and nodes made of numbers, and how each
// is printed.
#![tactic(auto)]

pub mod asks;
pub mod tables;
mod words;

pub use words::{Shown, Tests};

// The schedule of the document's example: the team of each step, in their order.
pub const SCHEDULE: [i32; 17] = [1, 1, 1, 1, 2, 1, 2, 1, 2, 1, 1, 2, 2, 2, 1, 1, 1];
