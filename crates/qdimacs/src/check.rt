// Whether a text is well formed.
ghost use Rattle.qdimacs.specs.Reading.{Headed};

use dimacs::{atoms, comments, shape};
use sheet::refusal::Fault;

// Where the fields begin, and the variables of the problem line.
#[derive(Clone, Copy)]
pub struct Header {
    pub at: usize,
    pub variables: u32,
}

// The header of a text that is well formed.
pub fn check(text: &[u8]) -> Result<Header, Fault>
    ensures { Headed text.now result }
{
    let at = comments::behind_comments(text);
    let state = shape::run(text, at);
    if !shape::whole(state) || !atoms::proper_atoms(text, at) {
        return Err(Fault::QuestionBroken);
    }
    Ok(Header {
        at,
        variables: state.variables,
    })
}
