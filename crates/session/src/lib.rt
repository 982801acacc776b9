// A session over one sheet: the entries standing, and one script line. Everything here is `pub` for the crate `run`, which keeps its session sound.
#![tactic(auto)]

pub mod causes;
pub mod entries;
pub mod inplace;
pub mod line;
pub mod script;

use cube::Cube64;
pub use model::Entry;
use records::Counts;

// The first `len` entries stand, oldest first, in room that is fixed, as there is no heap; `entered` fixes their variables at their values, so that no line
// walks them. The first records of the two tables count, as many as `kept` says.
#[derive(Clone, Copy)]
pub struct Session {
    pub entries: [Entry; 64],
    pub len: usize,
    pub entered: Cube64,
    pub kept: Counts,
}

// What a line that is not refused answers: document 01's V, and the word.
#[derive(Clone, Copy)]
pub struct Answer {
    pub v: u8,
    pub word: u64,
}

// A session after a line that is not refused, and the line's answer.
#[derive(Clone, Copy)]
pub struct Stepped {
    pub session: Session,
    pub answer: Answer,
}
