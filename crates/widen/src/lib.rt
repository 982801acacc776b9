// A narrow sheet as a wide one, frame by frame: each field keeps its number.
#![tactic(auto)]

ghost use Rattle.std.specs.Prelude.{◌≡◌, ◌+◌, ◌*◌, ◌<◌, ◌≤◌, length};
ghost use Rattle.std.proofs.lemmas.List.Edits.{sets};
ghost use Rattle.form.specs.Form.{frame_start};
ghost use Rattle.sheet.specs.Fields.{narrow, frames, laid};
ghost use Rattle.sheet.specs.Told.{refused_number, refused_place, length_told};
ghost use Rattle.widen.specs.Widen.{wide_bytes, widened, Widens};

use form::Form;
use sheet::refusal::{Fault, Refused};

// Frame k of the sheet at its place among wide ones: the higher byte of each field is 0.
fn widen_frame(sheet: &[u8], out: &mut [u8], k: usize)
    requires { (k < frames (narrow sheet.now)) × (k * 7 + 7 ≤ length out.old) }
    ensures { out.new ≡ sets out.old (k * 7) (wide_bytes (laid Form.Narrow sheet.now k)) }
{
    let p = k * 4;
    let wide = [sheet[p], 0, sheet[p + 1], 0, sheet[p + 2], 0, sheet[p + 3]];
    let at = k * 7;
    out[at..at + 7].copy_from_slice(&wide);
}

// Every frame.
fn widen_frames(sheet: &[u8], out: &mut [u8])
    requires { frame_start Form.Wide (frames (narrow sheet.now)) ≤ length out.old }
    ensures { out.new ≡ sets out.old 0 (widened sheet.now) }
{
    for k in 0..sheet.len() / 4 {
        widen_frame(sheet, out, k);
    }
}

// Writes the wide sheet from the buffer's start, and says how many bytes it has. A sheet that is refused, or a buffer of under seven bytes a frame, leaves it
// as it was.
pub fn widen(sheet: &[u8], out: &mut [u8]) -> Result<usize, Refused>
    ensures { Widens sheet.now out.old out.new (refused_number result) (refused_place result) (length_told result) }
{
    sheet::check(sheet, Form::Narrow)?;
    let size = sheet.len() / 4 * 7;
    if out.len() < size {
        return Err(Refused::from(Fault::WideNoRoom));
    }
    widen_frames(sheet, out);
    Ok(size)
}
