// The program: a text of either form from standard input, and the lines of its sheet's normal sheet to standard output.
#![tactic(auto)]

ghost use Rattle.std.specs.Prelude.{◌≡◌, ◌<◌, ◌≤◌, length, OnOk, IfSome};
ghost use Rattle.std.specs.Io.KnownBytes.{Appends};
ghost use Rattle.form.specs.Form.{most_frames};
ghost use Rattle.sheet.specs.Fields.{sheet_of};
ghost use Rattle.sheet.specs.Told.{number_of};
ghost use Rattle.to_normal.specs.Printed.{refusal_line, printed_sheet, printed, Begins};
ghost use Rattle.to_normal.specs.PrintedLaws.{normal_room};

use form::Form;
use sheet::refusal::Refused;
use std::io;
use std::io::{Read, Write};

// The most that is read is one byte less, so that a longer text is noticed.
const TEXT_BYTES: usize = 65537;

// A normal sheet has no more frames than its sheet, so that the longest sheet's bytes are enough: two hundred frames of four bytes, 3,000 of seven.
const NORMAL_BYTES: usize = 800;

const WIDE_NORMAL_BYTES: usize = 21000;

// The lines of 3,000 wide frames, fifteen bytes each; narrow ones and refusals take less.
const LINES_BYTES: usize = 45000;

// Writes the line of a refusal, which has as many bytes as an answer.
fn refuse(form: Form, refused: Refused, out: &mut [u8]) -> usize
    requires { (refused.place < most_frames form) × (45000 ≤ length out.old) }
    ensures { Begins (refusal_line form (number_of refused.fault) refused.place) out.new result }
{
    let number = refused.fault.number();
    let [high, low] = refused.place.to_be_bytes();
    match form {
        Form::Narrow => text::answer_lines(&[number, low, 0, 0, 0, 0], form, out),
        Form::Wide => text::answer_lines(&[number, high, low, 0, 0, 0, 0, 0, 0, 0], form, out),
    }
}

// Writes the lines of a sheet's normal sheet, or the sheet's refusal, with as many bytes for the normal sheet as the longest of the form has.
fn print_sized<const N: usize>(form: Form, sheet: &[u8], out: &mut [u8]) -> usize
    requires { (normal_room form ≡ N) × (45000 ≤ length out.old) }
    ensures { Begins (printed_sheet (sheet_of form sheet.now)) out.new result }
{
    let mut frames = [0u8; N];
    match normal::write(sheet, form, &mut frames) {
        Ok(end) => text::frame_lines(&frames[..end], form, out),
        Err(refused) => refuse(form, refused, out),
    }
}

fn print_sheet(form: Form, sheet: &[u8], out: &mut [u8]) -> usize
    requires { 45000 ≤ length out.old }
    ensures { Begins (printed_sheet (sheet_of form sheet.now)) out.new result }
{
    match form {
        Form::Narrow => print_sized::<NORMAL_BYTES>(form, sheet, out),
        Form::Wide => print_sized::<WIDE_NORMAL_BYTES>(form, sheet, out),
    }
}

// Writes what is printed for a text from the buffer's start, and says how many bytes that are. The script is read and not printed.
fn print(text: &[u8], out: &mut [u8]) -> usize
    requires { 45000 ≤ length out.old }
    ensures { Begins (printed text.now) out.new result }
{
    let mut sheet = [0u8; text::SHEET_BYTES];
    let mut script = [0u8; text::SCRIPT_BYTES];
    match text::read(text, &mut sheet, &mut script) {
        Ok(parsed) => print_sheet(parsed.form, &sheet[..parsed.sheet], out),
        Err(unread) => refuse(unread.form, Refused::from(unread.fault), out),
    }
}

// The program over any reader and writers. Where the reader's bytes are known, what is printed for them is appended to what the output holds, or, where
// they are too many, nothing is.
fn run<R: Read, W: Write, C: Write>(
    input: &mut R,
    output: &mut W,
    complaints: &mut C,
) -> io::Result<()>
    ensures whole { OnOk result (IfSome (R.remaining input.old) (λ text. length text ≤ 65536 → Appends (W.contents output.old) (W.contents output.new) (printed text))) }
    ensures too_long { OnOk result (IfSome (R.remaining input.old) (λ text. 65536 < length text → W.contents output.new ≡ W.contents output.old)) }
{
    let mut text = [0u8; TEXT_BYTES];
    let read = stdio::read_full(input, &mut text)?;
    if read == TEXT_BYTES {
        return complaints.write_all(b"to_normal: more than 65,536 bytes\n");
    }
    let mut lines = [0u8; LINES_BYTES];
    let written = print(&text[..read], &mut lines);
    output.write_all(&lines[..written])
}

fn main(rt: HostRuntime) -> io::Result<()> {
    run(&mut rt.stdin(), &mut rt.stdout(), &mut rt.stderr())
}
