// From a question's text, QDIMACS 1.1, to its arrays: fields, their shape, and the codes and words that they say.
#![tactic(auto)]

pub mod atoms;
pub mod comments;
pub mod decode;
pub mod shape;
pub mod token;
