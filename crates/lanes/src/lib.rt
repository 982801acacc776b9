// Searches with few unassigned variables, settled by tables: a word has a bit for each of 64 lanes, and a lane is a setting of up to six variables.
#![tactic(auto)]

pub mod fill;
pub mod half;
pub mod marks;
pub mod settle;

pub use settle::{Settled, solve};
