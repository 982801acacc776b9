// Reading into a buffer: what the programs do with standard input.
#![tactic(auto)]

ghost use Rattle.std.specs.Prelude.{◌≡◌, ◌<◌, length, take, IfOk, IfSome};
ghost use Rattle.std.specs.Io.{ReadsAtMost};
ghost use Rattle.std.specs.Io.KnownBytes.{Consumes, IsAtEnd, ReadConsumes};

use std::io;
use std::io::{ErrorKind, Read};

// Reads until the buffer is full or the reader has ended, and says how many bytes it put at the buffer's start.
pub fn read_full<R: Read>(reader: &mut R, buf: &mut [u8]) -> io::Result<usize>
    ensures within { ReadsAtMost result buf.new }
    ensures bytes { IfOk result (λ n. Consumes (R.remaining reader.old) (R.remaining reader.new) (take n buf.new)) }
    ensures end { IfOk result (λ n. n < length buf.new → IsAtEnd (R.remaining reader.new)) }
    ensures first { IfOk result (λ n. IfSome (R.remaining reader.old) (λ xs. take n buf.new ≡ take (length buf.new) xs)) }
{
    let mut done = 0;
    while done < buf.len() {
        let n = read_some(reader, &mut buf[done..])?;
        if n == 0 {
            return Ok(done);
        }
        done += n;
    }
    Ok(done)
}

// One read, begun anew where a signal interrupted it.
fn read_some<R: Read>(reader: &mut R, buf: &mut [u8]) -> io::Result<usize>
    ensures within { ReadsAtMost result buf.new }
    ensures bytes { ReadConsumes (R.remaining reader.old) (R.remaining reader.new) result buf.new }
{
    for _ in 0..u64::MAX {
        match reader.read(buf) {
            Ok(n) => return Ok(n),
            Err(e) => {
                if e.kind() != ErrorKind::Interrupted {
                    return Err(e);
                }
            }
        }
    }
    reader.read(buf)
}

#[cfg(test)]
mod tests {
    use super::*;
    use std::test::Fail;

    // Gives two bytes a read. Each third read is interrupted, and the read `fails_at` fails.
    #[derive(Drop)]
    struct Pieces<'a> {
        left: &'a [u8],
        reads: u32,
        fails_at: u32,
    }

    impl Read for Pieces<'_> {
        fn read(&mut self, buf: &mut [u8]) -> io::Result<usize> {
            self.reads = self.reads.wrapping_add(1);
            if self.reads == self.fails_at {
                return Err(io::Error::from(ErrorKind::BrokenPipe));
            }
            if self.reads % 3 == 0 {
                return Err(io::Error::from(ErrorKind::Interrupted));
            }
            let n = self.left.len().min(buf.len()).min(2);
            buf[..n].copy_from_slice(&self.left[..n]);
            self.left = &self.left[n..];
            Ok(n)
        }
    }

    #[test]
    fn fills_the_buffer(rt: HostRuntime) -> Result<(), Fail> {
        let mut reader = Pieces {
            left: b"abcdefgh",
            reads: 0,
            fails_at: 0,
        };
        let mut buf = [0u8; 5];
        let full = read_full(&mut reader, &mut buf)?;
        assert_eq!(rt; full, 5);
        assert_eq!(rt; &buf, b"abcde");
        let rest = read_full(&mut reader, &mut buf)?;
        assert_eq!(rt; rest, 3);
        assert_eq!(rt; buf[..3], *b"fgh".as_slice());
        let none = read_full(&mut reader, &mut buf)?;
        assert_eq!(rt; none, 0);
        Ok(())
    }

    #[test]
    fn tells_a_failed_read(rt: HostRuntime) -> Result<(), Fail> {
        let mut reader = Pieces {
            left: b"abcdefgh",
            reads: 0,
            fails_at: 2,
        };
        let mut buf = [0u8; 8];
        match read_full(&mut reader, &mut buf) {
            Ok(n) => assert_eq!(rt; n, 100),
            Err(e) => assert!(rt; e.kind() == ErrorKind::BrokenPipe),
        }
        Ok(())
    }
}
