// The program: the text of a question from standard input, and the lines of its sheet to standard output.
#![tactic(auto)]

ghost use Rattle.std.specs.Prelude.{ℕ, List, ◌≡◌, ◌<◌, ◌≤◌, length, OnOk, IfSome};
ghost use Rattle.std.specs.Io.KnownBytes.{Appends};
ghost use Rattle.from_qdimacs.specs.Converted.{Converted, Prints};

use form::Form;
use std::io;
use std::io::{Read, Write};

// The most that is read is one byte less, so that a longer text is noticed.
const TEXT_BYTES: usize = 65537;

// Two hundred lines of nine bytes.
const OUTPUT_BYTES: usize = 1800;

// Writes what is printed for a text from the buffer's start, and says how many bytes that are.
fn convert(text: &[u8], out: &mut [u8]) -> usize
    requires { 1800 ≤ length out.old }
    ensures { Prints text.now out.new result }
{
    let mut sheet = [0u8; prenex::SHEET_BYTES];
    match qdimacs::read(text, &mut sheet) {
        Ok(size) => text::frame_lines(&sheet[..size], Form::Narrow, out),
        Err(fault) => text::answer_lines(&[fault.number(), 0, 0, 0, 0, 0], Form::Narrow, out),
    }
}

// The program over any reader and writers. Where the reader's bytes are known, what they are converted to is appended to what the output holds, or, where
// they are too many, nothing is.
fn run<R: Read, W: Write, C: Write>(
    input: &mut R,
    output: &mut W,
    complaints: &mut C,
) -> io::Result<()>
    ensures whole { OnOk result (IfSome (R.remaining input.old) (λ text. length text ≤ 65536 → (lines : List ℕ) × Converted text lines × Appends (W.contents output.old) (W.contents output.new) lines)) }
    ensures too_long { OnOk result (IfSome (R.remaining input.old) (λ text. 65536 < length text → W.contents output.new ≡ W.contents output.old)) }
{
    let mut text = [0u8; TEXT_BYTES];
    let read = stdio::read_full(input, &mut text)?;
    if read == TEXT_BYTES {
        return complaints.write_all(b"from_qdimacs: more than 65,536 bytes\n");
    }
    let mut lines = [0u8; OUTPUT_BYTES];
    let written = convert(&text[..read], &mut lines);
    output.write_all(&lines[..written])
}

fn main(rt: HostRuntime) -> io::Result<()> {
    run(&mut rt.stdin(), &mut rt.stdout(), &mut rt.stderr())
}
