// What is known of a net's nodes under a partial assignment, and the scratch that it stands in.
#![tactic(auto)]

pub mod cells;
pub mod dirty;
pub mod forward;

pub use cells::{Known, known_at};
