// The two forms of a sheet: every size that depends on the form is named here once. Only leaves know a layout: a frame's fields (sheet), a record
// (records), an answer (run), a line of text (text).
#![tactic(auto)]

ghost use Rattle.std.specs.Prelude.{◌≡◌};
ghost use Rattle.form.specs.Form as Sizes;

#[derive(Clone, Copy, PartialEq, Eq)]
pub enum Form {
    Narrow,
    Wide,
}

// The form that a bool tells, for a caller that has one.
pub fn of(wide: bool) -> Form
    ensures { result ≡ Sizes.form_of wide }
{
    if wide { Form::Wide } else { Form::Narrow }
}

pub fn frame_bytes(form: Form) -> usize
    ensures { result ≡ Sizes.frame_bytes form }
{
    match form {
        Form::Narrow => 4,
        Form::Wide => 7,
    }
}

pub fn most_frames(form: Form) -> usize
    ensures { result ≡ Sizes.most_frames form }
{
    match form {
        Form::Narrow => 200,
        Form::Wide => 3000,
    }
}

pub fn variables(form: Form) -> u8
    ensures { result ≡ Sizes.variables form }
{
    match form {
        Form::Narrow => 32,
        Form::Wide => 64,
    }
}

pub fn answer_bytes(form: Form) -> usize
    ensures { result ≡ Sizes.answer_bytes form }
{
    match form {
        Form::Narrow => 6,
        Form::Wide => 10,
    }
}

// How many whole frames so many bytes hold.
pub fn frames(form: Form, len: usize) -> usize
    ensures { result ≡ Sizes.frames form len }
{
    match form {
        Form::Narrow => len / 4,
        Form::Wide => len / 7,
    }
}

// How many bytes are behind the whole frames.
pub fn rest(form: Form, len: usize) -> usize
    ensures { result ≡ Sizes.rest form len }
{
    match form {
        Form::Narrow => len % 4,
        Form::Wide => len % 7,
    }
}

// How many records a table of so many numbers has room for.
pub fn room(form: Form, len: usize) -> usize
    ensures { result ≡ Sizes.room form len }
{
    match form {
        Form::Narrow => len / 3,
        Form::Wide => len / 5,
    }
}

// How many answers have room in so many bytes.
pub fn answers(form: Form, len: usize) -> usize
    ensures { result ≡ Sizes.answers_in form len }
{
    match form {
        Form::Narrow => len / 6,
        Form::Wide => len / 10,
    }
}
