// ASK and WHY: questions about the last frame of a sheet, put to the search.
#![tactic(auto)]

mod question;
mod reason;
mod verdict;

pub use reason::why;
pub use verdict::{Answered, ask};
