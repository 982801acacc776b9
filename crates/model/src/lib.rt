// The plain book of document 01: what a script's lines do to the entries, and what is answered. Definitions and laws only (specs/), over entries.
#![tactic(auto)]

// A variable that is entered, its value, and the desk that entered it.
#[derive(Clone, Copy)]
pub struct Entry {
    pub variable: u8,
    pub value: u8,
    pub desk: u8,
}
