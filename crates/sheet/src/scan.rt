// One pass over a sheet: whether it keeps document 01's rules, and document 02's for gauges, and if not, the first cause in their order that holds.
ghost use Rattle.std.specs.Prelude.{◌≡◌, false, ◌+◌, ◌^◌, ◌<◌, ◌≤◌, length, get_or, set};
ghost use Rattle.form.specs.Form as Sizes;
ghost use Rattle.sheet.specs.Cause.{some_holds};
ghost use Rattle.sheet.specs.Fields.{sheet_of, frames, kind};
ghost use Rattle.sheet.specs.Frames.{Fit};
ghost use Rattle.sheet.specs.Rules.{size_causes, frame_causes, sheet_causes};
ghost use Rattle.sheet.specs.Check.{free_word, seen_after, Checks};
ghost use Rattle.sheet.specs.Pass.{Passed, RootChecks, Scanned};
ghost use Rattle.sheet.specs.Told.{refused_number, refused_place, free_told, gauges_told};

use crate::ranged::{Ranged, input_word, range_word};
use crate::reader::Reader;
use crate::refusal::{Fault, Refused};
use crate::rules::{Seen, check_frame, check_size};
use crate::{Frame, Kind};
use form::Form;
use words::Word;

// Of a sheet that is accepted: the free variables of its last frame, and the variables that are gauges.
#[derive(Clone, Copy)]
pub struct Accepted {
    pub free: u64,
    pub gauges: u64,
}

// The free variables of an earlier frame.
fn word_at(free: &[u64], number: u16) -> u64
    requires { number < length free.now }
    ensures { result ≡ get_or free.now number 0 }
{
    free[usize::from(number)]
}

// The free variables of a frame of this kind, from those of the frames before it.
#[tactic(auto, unfolding(crate::specs::Check::free_word))]
fn free_word(kind: Kind, free: &[u64]) -> u64
    requires { Fit 64 (length free.now) kind }
    ensures { result ≡ free_word free.now kind }
{
    match kind {
        Kind::Never => 0,
        Kind::Input(x) | Kind::Gauge(x) => input_word(x),
        Kind::Not(x) => word_at(free, x),
        Kind::And(x, y) | Kind::Or(x, y) => word_at(free, x) | word_at(free, y),
        Kind::Exists(x, b, c) | Kind::Forall(x, b, c) => word_at(free, x).without(range_word(b, c)),
    }
}

// A frame at which no cause holds: its free variables go into the table, and what is seen so far is given back.
fn pass(number: usize, ranged: Ranged, words: &mut [u64], seen: Seen) -> Seen
    requires { (number < length words.old) × Fit 64 (length words.old) ranged.kind }
    ensures { (words.new ≡ set words.old number (free_word words.old ranged.kind)) × (result ≡ seen_after seen ranged.kind) }
{
    words[number] = free_word(ranged.kind, words);
    ranged.seen_after(seen)
}

// One turn of the pass, over the frame that the reader gave: it is refused, or its words are kept.
fn visit(
    sheet: &[u8],
    form: Form,
    words: &mut [u64],
    frame: Frame,
    seen: Seen,
) -> Result<Seen, Refused>
    requires { Passed (sheet_of form sheet.now) words.old seen frame.number × (frame.number < frames (sheet_of form sheet.now)) × (frame.kind ≡ kind (sheet_of form sheet.now) frame.number) }
    ensures { Scanned (sheet_of form sheet.now) words.new (frame.number + 1) result }
{
    match check_frame(sheet, form, frame.number, seen) {
        Ok(()) => {
            let ranged = Ranged {
                form,
                kind: frame.kind,
            };
            Ok(pass(frame.number, ranged, words, seen))
        }
        Err(fault) => Err(Refused {
            fault,
            place: frame.number as u16,
        }),
    }
}

// The pass over all frames, one after the other.
fn scan_frames(sheet: &[u8], form: Form, words: &mut [u64]) -> Result<Seen, Refused>
    requires { (some_holds (size_causes (sheet_of form sheet.now)) ≡ false) × (Sizes.most_frames form ≤ length words.old) }
    ensures { Scanned (sheet_of form sheet.now) words.new (frames (sheet_of form sheet.now)) result }
{
    let mut seen = Seen::default();
    for frame in Reader::new(sheet, form, 0) {
        seen = visit(sheet, form, words, frame, seen)?;
    }
    Ok(seen)
}

// The answer where no cause holds at a frame: the last frame's free variables are word.
fn root_answer(form: Form, word: u64, seen: Seen, place: u16) -> Result<Accepted, Refused>
    requires { word < 2 ^ Sizes.variables form }
    ensures { RootChecks form word seen place (refused_number result) (refused_place result) (free_told result) (gauges_told result) }
{
    if seen.bound & word != 0 {
        return Err(Refused {
            fault: Fault::BoundFree,
            place,
        });
    }
    Ok(Accepted {
        free: word,
        gauges: seen.gauges,
    })
}

// The frames of a sheet of a right size, in one pass, with words of its own for the free variables of so many.
fn scan_sized<const FRAMES: usize>(sheet: &[u8], form: Form) -> Result<Accepted, Refused>
    requires { (some_holds (size_causes (sheet_of form sheet.now)) ≡ false) × (Sizes.most_frames form ≡ FRAMES) }
    ensures { Checks (frame_causes (sheet_of form sheet.now)) (sheet_of form sheet.now) (refused_number result) (refused_place result) (free_told result) (gauges_told result) }
{
    let mut words = [0u64; FRAMES];
    let seen = scan_frames(sheet, form, &mut words)?;
    let last = form::frames(form, sheet.len()) - 1;
    root_answer(form, words[last], seen, last as u16)
}

// The frames of a sheet of a right size. `pub` for a run, which looks at its script between size and frames.
pub fn check_frames(sheet: &[u8], form: Form) -> Result<Accepted, Refused>
    requires { some_holds (size_causes (sheet_of form sheet.now)) ≡ false }
    ensures { Checks (frame_causes (sheet_of form sheet.now)) (sheet_of form sheet.now) (refused_number result) (refused_place result) (free_told result) (gauges_told result) }
{
    match form {
        Form::Narrow => scan_sized::<200>(sheet, form),
        Form::Wide => scan_sized::<3000>(sheet, form),
    }
}

// The check of any bytes as a sheet of the form.
pub fn check(sheet: &[u8], form: Form) -> Result<Accepted, Refused>
    ensures { Checks (sheet_causes (sheet_of form sheet.now)) (sheet_of form sheet.now) (refused_number result) (refused_place result) (free_told result) (gauges_told result) }
{
    check_size(form, sheet.len())?;
    check_frames(sheet, form)
}
