// The text form: a sheet and a script read from lines of hexadecimal digits, and answers and frames written as such lines.
#![tactic(auto)]

mod frame;
mod hex;
mod layout;
mod line;
mod record;

ghost use Rattle.text.specs.Reading.{Read};
ghost use Rattle.text.specs.Answer.{Wrote, WroteFrames};

use form::Form;
use sheet::refusal::Fault;

// The form of a text that is read, and how many bytes of a sheet and of a script it wrote. (The buffers are the caller's: there is no heap.)
#[derive(Clone, Copy)]
pub struct Parsed {
    pub form: Form,
    pub sheet: usize,
    pub script: usize,
}

// Why a text is refused, and the form that it is told in.
#[derive(Clone, Copy)]
pub struct Unread {
    pub form: Form,
    pub fault: Fault,
}

// The least lengths of the buffers: what the longest wide sheet and the longest script take.
pub const SHEET_BYTES: usize = 21000;

pub const SCRIPT_BYTES: usize = layout::SCRIPT_FRAMES * layout::SCRIPT_FRAME_BYTES;

// The bytes of an answer's line in either form: two digits for each of its bytes (`form::answer_bytes`), and the line's end.
pub const LINE_BYTES: usize = 2 * 6 + 1;

pub const WIDE_LINE_BYTES: usize = 2 * 10 + 1;

// Reads a text into the two buffers. Nothing is written before all of the text is known to be right.
pub fn read(text: &[u8], sheet: &mut [u8], script: &mut [u8]) -> Result<Parsed, Unread>
    ensures { Read text.now sheet.old script.old result sheet.new script.new }
{
    if sheet.len() < SHEET_BYTES || script.len() < SCRIPT_BYTES {
        return Err(Unread {
            form: Form::Narrow,
            fault: Fault::NoRoom,
        });
    }
    let form = layout::form_of(text);
    let layout = layout::scan(text, form).map_err(|fault| Unread { form, fault })?;
    let size = form::frame_bytes(form);
    frame::put_frames(text, size, layout.sheet, sheet);
    frame::put_frames(
        layout.behind,
        layout::SCRIPT_FRAME_BYTES,
        layout.script,
        script,
    );
    Ok(Parsed {
        form,
        sheet: layout.sheet * size,
        script: layout.script * layout::SCRIPT_FRAME_BYTES,
    })
}

// Writes the lines of as many frames of a sheet as are whole and have room, and says how many bytes that are.
pub fn frame_lines(frames: &[u8], form: Form, out: &mut [u8]) -> usize
    ensures { WroteFrames form frames.now out.old result out.new }
{
    record::record_lines(frames, form::frame_bytes(form), out)
}

// Writes the lines of as many answers as are whole and have room, and says how many bytes that are.
pub fn answer_lines(answers: &[u8], form: Form, out: &mut [u8]) -> usize
    ensures { Wrote form answers.now out.old result out.new }
{
    record::record_lines(answers, form::answer_bytes(form), out)
}
