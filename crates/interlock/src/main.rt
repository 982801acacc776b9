// The program: a text from standard input, and what is printed for it to standard output.
#![tactic(auto)]

ghost use Rattle.std.specs.Prelude.{◌≤◌, length, OnOk, IfSome};
ghost use Rattle.std.specs.Io.KnownBytes.{Appends};
ghost use Rattle.text.specs.Prefix.{decisive};
ghost use Rattle.response.specs.Printed.{printed, Starts};

use std::io;
use std::io::{Read, Write};

// The most that is read.
const TEXT_BYTES: usize = 65536;

// A thousand lines of a wide sheet's answers.
const OUTPUT_BYTES: usize = 1000 * text::WIDE_LINE_BYTES;

// All of what is printed for a text, from the buffer's start.
fn respond_whole(text: &[u8], output: &mut [u8]) -> usize
    requires { 21000 ≤ length output.old }
    ensures { Starts (printed text.now) output.new result }
{
    response::respond(text, output)
}

// Room for so much of a text that what stands behind it in a longer one makes no difference (`printed-prefix`).
fn text_room() -> [u8; TEXT_BYTES]
    ensures { decisive ≤ length result }
{
    [0; TEXT_BYTES]
}

// The program over any reader and writer. Where the reader's bytes are known, what is printed for all of them, however many, is appended to what the writer holds.
fn run<R: Read, W: Write>(input: &mut R, output: &mut W) -> io::Result<()>
    ensures { OnOk result (IfSome (R.remaining input.old) (λ text. Appends (W.contents output.old) (W.contents output.new) (printed text))) }
{
    let mut text = text_room();
    let read = stdio::read_full(input, &mut text)?;
    let mut lines = [0u8; OUTPUT_BYTES];
    let written = respond_whole(&text[..read], &mut lines);
    output.write_all(&lines[..written])
}

fn main(rt: HostRuntime) -> io::Result<()> {
    run(&mut rt.stdin(), &mut rt.stdout())
}
