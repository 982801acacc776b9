// A reader that borrows a sheet's bytes and gives one frame at a time; thin over `decode`.
ghost use Rattle.std.specs.Prelude.{◌≡◌, ◌-◌};
ghost use Rattle.std.specs.Iterator.{at_most};
ghost use Rattle.sheet.specs.Fields.{frames, kind};
ghost use Rattle.sheet.specs.Reader.{Takes, read_by, after};

use crate::{Frame, decode};
use form::Form;

// A sheet's bytes, its form, and the number of the frame that is taken next.
#[derive(Clone, Copy)]
pub struct Reader<'a> {
    pub bytes: &'a [u8],
    pub form: Form,
    pub at: usize,
}

impl<'a> Reader<'a> {
    // A reader at the frame of that number.
    pub fn new(bytes: &'a [u8], form: Form, number: usize) -> Reader<'a>
        ensures { (result.bytes ≡ bytes.entry) × (result.form ≡ form) × (result.at ≡ number) }
    {
        Reader {
            bytes,
            form,
            at: number,
        }
    }

    // Takes the frame at the reader, which moves on; past the last whole frame it gives `Never` and stays.
    #[tactic(auto, unfolding(crate::specs::Reader::following))]
    pub fn read(&mut self) -> Frame
        ensures { (result.number ≡ self.old.at) × (result.kind ≡ kind (read_by self.old) self.old.at) × (self.new ≡ after self.old) }
    {
        let frame = decode(self.bytes, self.form, self.at);
        if self.at < form::frames(self.form, self.bytes.len()) {
            self.at += 1;
        }
        frame
    }
}

// The same frame by frame: past the last whole one there is none.
impl Iterator for Reader<'_> {
    type Item = Frame;

    ghost next_gives = { Takes };

    ghost remaining = { λ r. at_most (frames (read_by r) - r.at) };

    fn next(&mut self) -> Option<Frame> {
        if self.at >= form::frames(self.form, self.bytes.len()) {
            return None;
        }
        Some(self.read())
    }
}
