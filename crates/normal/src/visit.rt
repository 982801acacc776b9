// The way over a sheet's frames that places each behind those that it names, A's whole side before B's. The frames that wait are on a stack: a sheet of
// 3,000 frames needs no recursion as deep.
ghost use Rattle.std.specs.Prelude.{◌≡◌, ℕ, ◌+◌, ◌-◌, ◌≤◌, ◌<◌, None, length, get_or, set};
ghost use Rattle.sheet.specs.Fields as Sheets;
ghost use Rattle.sheet.specs.Fields.{sheet_of};
ghost use Rattle.sheet.specs.Frames.{Fit};
ghost use Rattle.sheet.specs.Keeps.{Keeps};
ghost use Rattle.normal.specs.Visit.{NumberOf, Renames, left, Visiting, Visited};

use crate::place::Frames;
use form::Form;
use sheet::Kind;

// The frame's new number, or, where it is not placed yet, the frame itself.
fn number_of(numbers: &[Option<u16>], frame: u16) -> Result<u16, u16>
    requires { frame < length numbers.now }
    ensures { NumberOf numbers.now frame result }
{
    numbers[usize::from(frame)].ok_or(frame)
}

// The kind with the new numbers of the frames that it names, or the first of these that is not placed yet.
#[tactic(auto, unfolding(crate::specs::Visit::renamed, crate::specs::Visit::first_unplaced))]
fn renamed(kind: Kind, numbers: &[Option<u16>]) -> Result<Kind, u16>
    requires { Fit 64 (length numbers.now) kind }
    ensures { Renames numbers.now kind result }
{
    Ok(match kind {
        Kind::Never | Kind::Input(_) | Kind::Gauge(_) => kind,
        Kind::Not(a) => Kind::Not(number_of(numbers, a)?),
        Kind::And(a, b) => Kind::And(number_of(numbers, a)?, number_of(numbers, b)?),
        Kind::Or(a, b) => Kind::Or(number_of(numbers, a)?, number_of(numbers, b)?),
        Kind::Exists(a, b, c) => Kind::Exists(number_of(numbers, a)?, b, c),
        Kind::Forall(a, b, c) => Kind::Forall(number_of(numbers, a)?, b, c),
    })
}

// The frames that wait, in room that is fixed, as there is no heap; the one on top is at depth - 1.
#[derive(Drop)]
pub struct Waiting<const N: usize> {
    pub frames: [u16; N],
    pub depth: usize,
}

impl<const N: usize> Waiting<N> {
    fn top(&self) -> u16
        requires { (0 < self.now.depth) × (self.now.depth ≤ N) }
        ensures { result ≡ get_or self.now.frames (self.now.depth - 1) 0 }
    {
        self.frames[self.depth - 1]
    }

    fn push(&mut self, frame: u16)
        requires { self.old.depth < N }
        ensures { (self.new.frames ≡ set self.old.frames self.old.depth frame) × (self.new.depth ≡ self.old.depth + 1) }
    {
        self.frames[self.depth] = frame;
        self.depth += 1;
    }

    fn pop(&mut self)
        requires { 0 < self.old.depth }
        ensures { (self.new.frames ≡ self.old.frames) × (self.new.depth ≡ self.old.depth - 1) }
    {
        self.depth -= 1;
    }
}

// What is known between two turns: the frames written so far, the new number of each frame that is placed, and the frames that wait.
#[derive(Drop)]
pub struct Walk<const N: usize> {
    pub frames: Frames<N>,
    pub numbers: [Option<u16>; N],
    pub waiting: Waiting<N>,
}

impl<const N: usize> Walk<N> {
    // One turn: a frame that the one on top names goes on top of it; where all of those are placed, it is placed itself.
    fn turn(&mut self, sheet: &[u8], form: Form)
        requires { Visiting (sheet_of form sheet.now) self.old.frames.kinds self.old.numbers self.old.waiting.frames self.old.frames.count self.old.waiting.depth × (0 < self.old.waiting.depth) × (N ≤ 3000) }
        ensures { Visiting (sheet_of form sheet.now) self.new.frames.kinds self.new.numbers self.new.waiting.frames self.new.frames.count self.new.waiting.depth × (left self.new.numbers (Sheets.frames (sheet_of form sheet.now)) self.new.waiting.depth < left self.old.numbers (Sheets.frames (sheet_of form sheet.now)) self.old.waiting.depth) }
    {
        let own = usize::from(self.waiting.top());
        let frame = sheet::decode(sheet, form, own);
        match renamed(frame.kind, &self.numbers) {
            Err(next) => self.waiting.push(next),
            Ok(kind) => {
                let number = self.frames.put(kind);
                self.numbers[own] = Some(number as u16);
                self.waiting.pop();
            }
        }
    }

    // All turns, the last frame waiting first: `frames` has the normal sheet's frames.
    pub fn run(&mut self, sheet: &[u8], form: Form)
        requires { Keeps (sheet_of form sheet.now) × (Sheets.frames (sheet_of form sheet.now) ≤ N) × (N ≤ 3000) × ((k : ℕ) → k < Sheets.frames (sheet_of form sheet.now) → get_or self.old.numbers k None ≡ None) × (self.old.frames.count ≡ 0) × (self.old.waiting.depth ≡ 0) }
        ensures { Visited (sheet_of form sheet.now) self.new.frames.kinds self.new.frames.count }
    {
        let last = form::frames(form, sheet.len()) - 1;
        self.waiting.push(last as u16);
        while self.waiting.depth > 0 {
            self.turn(sheet, form);
        }
    }
}
