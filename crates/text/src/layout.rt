// A text's form, where it has its two parts, and its first fault.
ghost use Rattle.std.specs.Prelude.{◌≡◌};
ghost use Rattle.sheet.specs.Told.{number_of};
ghost use Rattle.text.specs.Reading as Spec;
ghost use Rattle.text.specs.Reading.{text_form, Scanned};

use crate::line;
use form::Form;
use sheet::refusal::Fault;

pub const SCRIPT_FRAMES: usize = 1000;

// The bytes of a script's frame, in either form.
pub const SCRIPT_FRAME_BYTES: usize = 4;

// Where an accepted text has its parts: how many lines the sheet has, and where the script's lines stand and how many they are.
#[derive(Clone, Copy)]
pub struct Layout<'a> {
    pub sheet: usize,
    pub behind: &'a [u8],
    pub script: usize,
}

// A text is wide if it begins with an ended line of fourteen digits.
#[tactic(auto, using(std::proofs::lemmas::Bool::Decides::nat_tests), unfolding(crate::specs::Reading::begins_wide))]
pub fn form_of(text: &[u8]) -> Form
    ensures { result ≡ text_form text.now }
{
    match line::line_size(text, form::frame_bytes(Form::Wide)) {
        Some(_) => Form::Wide,
        None => Form::Narrow,
    }
}

fn other(form: Form) -> Form
    ensures { result ≡ Spec.other form }
{
    match form {
        Form::Narrow => Form::Wide,
        Form::Wide => Form::Narrow,
    }
}

// What is told where neither one more line of the sheet nor the empty line stands.
#[tactic(auto, using(std::proofs::lemmas::Bool::Decides::nat_tests), unfolding(crate::specs::Reading::sheet_fault))]
fn sheet_fault(rest: &[u8], form: Form) -> Fault
    ensures { number_of result ≡ Spec.sheet_fault form rest.now }
{
    match line::line_size(rest, form::frame_bytes(other(form))) {
        Some(_) => Fault::OtherForm,
        None => Fault::TextShape,
    }
}

// Goes through a text of a form, writing nothing.
pub fn scan<'a>(text: &'a [u8], form: Form) -> Result<Layout<'a>, Fault>
    ensures { Scanned form text.now result }
{
    let most = form::most_frames(form);
    let sheet = line::lines(text, form::frame_bytes(form), most + 1);
    if most < sheet.count {
        return Err(Fault::SheetTooLong);
    }
    let Some(gap) = line::ending(sheet.rest) else {
        return Err(sheet_fault(sheet.rest, form));
    };
    let behind = &sheet.rest[gap..];
    let script = line::lines(behind, SCRIPT_FRAME_BYTES, SCRIPT_FRAMES + 1);
    if SCRIPT_FRAMES < script.count {
        return Err(Fault::ScriptTooLong);
    }
    if !script.rest.is_empty() {
        return Err(Fault::TextShape);
    }
    Ok(Layout {
        sheet: sheet.count,
        behind,
        script: script.count,
    })
}
