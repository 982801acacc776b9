// The lines of as many records as have room: answers or frames, of either form.
ghost use Rattle.std.specs.Prelude.{◌<◌, ◌≤◌};
ghost use Rattle.text.specs.Answer.{WroteLines};

use crate::hex::put_lines;

// Writes the lines of as many records of `size` bytes as are whole and have room, and says how many bytes that are.
pub fn record_lines(records: &[u8], size: usize, out: &mut [u8]) -> usize
    requires { (0 < size) × (size ≤ 16) }
    ensures { WroteLines size records.now out.old result out.new }
{
    let line = 2 * size + 1;
    let n = (records.len() / size).min(out.len() / line);
    put_lines(records, size, n, out);
    n * line
}
