// A sheet's normal sheet: its formula written in one order, each frame once.
#![tactic(auto)]

mod bytes;
mod place;
mod visit;

ghost use Rattle.std.specs.Prelude.{◌≡◌, ◌≤◌};
ghost use Rattle.form.specs.Form.{frame_start};
ghost use Rattle.sheet.specs.Fields as Sheets;
ghost use Rattle.sheet.specs.Fields.{sheet_of};
ghost use Rattle.sheet.specs.Keeps.{Keeps};
ghost use Rattle.sheet.specs.Told.{refused_number, refused_place, length_told};
ghost use Rattle.normal.specs.Normal.{Writes};

use bytes::write_frames;
use form::Form;
use place::Frames;
use sheet::Kind;
use sheet::refusal::{Fault, Refused};
use visit::{Waiting, Walk};

// The bytes of so many frames.
fn bytes_of(form: Form, count: usize) -> usize
    requires { count ≤ 3000 }
    ensures { result ≡ frame_start form count }
{
    match form {
        Form::Narrow => count * 4,
        Form::Wide => count * 7,
    }
}

// Writes the normal sheet of a sheet that keeps the rules, with room for N frames.
fn write_sized<const N: usize>(sheet: &[u8], form: Form, out: &mut [u8]) -> Result<usize, Refused>
    requires { Keeps (sheet_of form sheet.now) × (Sheets.most_frames (sheet_of form sheet.now) ≡ N) }
    ensures { Writes (sheet_of form sheet.now) out.old out.new (refused_number result) (refused_place result) (length_told result) }
{
    let mut walk: Walk<N> = Walk {
        frames: Frames {
            kinds: [Kind::Never; N],
            count: 0,
        },
        numbers: [None; N],
        waiting: Waiting {
            frames: [0; N],
            depth: 0,
        },
    };
    walk.run(sheet, form);
    let count = walk.frames.count;
    let size = bytes_of(form, count);
    if out.len() < size {
        return Err(Refused::from(Fault::NormalNoRoom));
    }
    write_frames(&walk.frames.kinds[..count], form, out);
    Ok(size)
}

// Writes the normal sheet from the buffer's start, and says how many bytes it has. A sheet that is refused, or a buffer that is too short, leaves it as it was.
pub fn write(sheet: &[u8], form: Form, out: &mut [u8]) -> Result<usize, Refused>
    ensures { Writes (sheet_of form sheet.now) out.old out.new (refused_number result) (refused_place result) (length_told result) }
{
    sheet::check(sheet, form)?;
    match form {
        Form::Narrow => write_sized::<200>(sheet, form, out),
        Form::Wide => write_sized::<3000>(sheet, form, out),
    }
}
