// A net: a checked sheet as numbers, decoded once a run and lent to every line.
#![tactic(auto)]

mod decode;
pub mod links;
pub mod node;
mod own;
mod rewrite;

pub use decode::load;
pub use links::link;
pub use node::{Node, Op, changed, form, frames, free, gauges, node_at};
pub use own::{choose, forget};
