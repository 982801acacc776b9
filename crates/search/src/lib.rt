// The search: source 000's two functions over a net, whose cells are lent and as before after each call.
#![tactic(auto)]

pub mod cycle;

pub use cycle::{Outcome, choose};
