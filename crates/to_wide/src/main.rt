// The program: a text with a narrow sheet from standard input, and the same text with its sheet widened to standard output.
#![tactic(auto)]

ghost use Rattle.std.specs.Prelude.{◌≡◌, ◌<◌, ◌≤◌, ◌∷◌, ◌++◌, cond, length, OnOk, IfSome};
ghost use Rattle.std.specs.Io.KnownBytes.{Appends};
ghost use Rattle.sheet.specs.Told.{number_of};
ghost use Rattle.to_wide.specs.Converted.{refusal_output, converted_sheet, converted, Begins, Converts};

use form::Form;
use sheet::refusal::{Fault, Refused};
use std::io;
use std::io::{Read, Write};

// The most that is read is one byte less, so that a longer text is noticed.
const TEXT_BYTES: usize = 65537;

// Two hundred frames of seven bytes, and their lines of fifteen.
const WIDE_SHEET_BYTES: usize = 1400;

const SHEET_LINES_BYTES: usize = 3000;

// A thousand lines of nine bytes.
const SCRIPT_LINES_BYTES: usize = 9000;

// How many bytes the lines of a wide sheet take, and those of a script.
#[derive(Clone, Copy)]
struct Lines {
    sheet: usize,
    script: usize,
}

// Writes a refusal's line. A place in a narrow sheet fits a byte.
fn refuse(refused: Refused, first: &mut [u8]) -> usize
    requires { (refused.place < 200) × (3000 ≤ length first.old) }
    ensures { Begins (refusal_output (number_of refused.fault) refused.place).first first.new result }
{
    let answer = [refused.fault.number(), refused.place as u8, 0, 0, 0, 0];
    text::answer_lines(&answer, Form::Narrow, first)
}

// Writes the lines of a narrow sheet widened, and those of a script.
fn convert_sheet(
    sheet: &[u8],
    script: &[u8],
    first: &mut [u8],
    second: &mut [u8],
) -> Result<Lines, Refused>
    requires { (3000 ≤ length first.old) × (9000 ≤ length second.old) × (length script.now ≤ 4000) }
    ensures { Converts (converted_sheet sheet.now script.now) first.new second.new result }
{
    let mut wide = [0u8; WIDE_SHEET_BYTES];
    let end = widen::widen(sheet, &mut wide)?;
    Ok(Lines {
        sheet: text::frame_lines(&wide[..end], Form::Wide, first),
        script: text::frame_lines(script, Form::Narrow, second),
    })
}

// Writes what is printed for a text from the start of the two buffers, unless it is refused: a wide text, read or not, is of the other form.
fn convert(text: &[u8], first: &mut [u8], second: &mut [u8]) -> Result<Lines, Refused>
    requires { (3000 ≤ length first.old) × (9000 ≤ length second.old) }
    ensures { Converts (converted text.now) first.new second.new result }
{
    let mut sheet = [0u8; text::SHEET_BYTES];
    let mut script = [0u8; text::SCRIPT_BYTES];
    match text::read(text, &mut sheet, &mut script) {
        Ok(parsed) => match parsed.form {
            Form::Narrow => convert_sheet(
                &sheet[..parsed.sheet],
                &script[..parsed.script],
                first,
                second,
            ),
            Form::Wide => Err(Refused::from(Fault::OtherForm)),
        },
        Err(unread) => match unread.form {
            Form::Narrow => Err(Refused::from(unread.fault)),
            Form::Wide => Err(Refused::from(Fault::OtherForm)),
        },
    }
}

// The program over any reader and writers. Where the reader's bytes are known, what they are converted to is appended to what the output holds, or, where
// they are too many, nothing is.
fn run<R: Read, W: Write, C: Write>(
    input: &mut R,
    output: &mut W,
    complaints: &mut C,
) -> io::Result<()>
    ensures whole { OnOk result (IfSome (R.remaining input.old) (λ text. length text ≤ 65536 →
        Appends (W.contents output.old) (W.contents output.new)
        (cond (converted text).refused (converted text).first ((converted text).first ++ 10 ∷ (converted text).second)))) }
    ensures too_long { OnOk result (IfSome (R.remaining input.old) (λ text. 65536 < length text → W.contents output.new ≡ W.contents output.old)) }
{
    let mut text = [0u8; TEXT_BYTES];
    let read = stdio::read_full(input, &mut text)?;
    if read == TEXT_BYTES {
        return complaints.write_all(b"to_wide: more than 65,536 bytes\n");
    }
    let mut first = [0u8; SHEET_LINES_BYTES];
    let mut second = [0u8; SCRIPT_LINES_BYTES];
    match convert(&text[..read], &mut first, &mut second) {
        Ok(lines) => {
            output.write_all(&first[..lines.sheet])?;
            output.write_all(b"\n")?;
            output.write_all(&second[..lines.script])
        }
        Err(refused) => {
            let end = refuse(refused, &mut first);
            output.write_all(&first[..end])
        }
    }
}

fn main(rt: HostRuntime) -> io::Result<()> {
    run(&mut rt.stdin(), &mut rt.stdout(), &mut rt.stderr())
}
