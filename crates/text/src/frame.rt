// The frames of a text's lines, written as bytes. Each function takes what is left of the text.
ghost use Rattle.std.specs.Prelude.{◌≡◌, true, ◌+◌, ◌*◌, ◌≤◌, ◌<◌, length};
ghost use Rattle.std.proofs.lemmas.List.Edits.{sets};
ghost use Rattle.text.specs.Line.{TwoDigits, byte_here, bytes, digits, lines};

use crate::hex::digit_value;
use crate::line::line_size;

// The byte that two digits give.
fn byte(rest: &[u8]) -> u8
    requires { TwoDigits rest.now }
    ensures { result ≡ byte_here rest.now }
{
    let high = digit_value(rest[0]).unwrap();
    let low = digit_value(rest[1]).unwrap();
    high * 16 + low
}

// Fills `out` with the bytes that the next digits give.
fn put_bytes(rest: &[u8], out: &mut [u8])
    requires { digits (2 * length out.old) rest.now ≡ true }
    ensures { out.new ≡ bytes (length out.old) rest.now }
{
    for (i, b) in out.iter_mut().enumerate() {
        *b = byte(&rest[2 * i..]);
    }
}

// Writes the frames, of `size` bytes each, of `count` lines that stand in a row.
pub fn put_frames(text: &[u8], size: usize, count: usize, out: &mut [u8])
    requires { (size ≤ 16) × ((lines size count text.now).count ≡ count) × (count * size ≤ length out.old) }
    ensures { out.new ≡ sets out.old 0 (lines size count text.now).frames }
{
    let mut rest = text;
    for i in 0..count {
        let to = i * size;
        put_bytes(rest, &mut out[to..to + size]);
        let bytes = line_size(rest, size).unwrap();
        rest = &rest[bytes..];
    }
}
