// The bytes of frames, by their kinds.
ghost use Rattle.std.specs.Prelude.{◌≡◌, ◌+◌, ◌≤◌, length};
ghost use Rattle.std.proofs.lemmas.List.Edits.{sets};
ghost use Rattle.form.specs.Form.{frame_bytes, frame_start};
ghost use Rattle.normal.specs.Normal.{fields_of, frame_of, frames_bytes};
ghost use Rattle.normal.specs.Lists.{Fits, AllFit};

use form::Form;
use sheet::{Fields, Kind};

fn fields(k: u8, a: u16, b: u16, c: u16) -> Fields
    ensures { result ≡ record { k = k; a = a; b = b; c = c } }
{
    Fields { k, a, b, c }
}

// The fields of a frame of this kind, spare ones 0.
#[tactic(auto, unfolding(crate::specs::Normal::fields_of))]
fn fields_of(kind: Kind) -> Fields
    ensures { result ≡ fields_of kind }
{
    match kind {
        Kind::Never => fields(0, 0, 0, 0),
        Kind::Input(x) => fields(1, x, 0, 0),
        Kind::Not(a) => fields(2, a, 0, 0),
        Kind::And(a, b) => fields(3, a, b, 0),
        Kind::Or(a, b) => fields(4, a, b, 0),
        Kind::Exists(a, b, c) => fields(5, a, b, c),
        Kind::Forall(a, b, c) => fields(6, a, b, c),
        Kind::Gauge(x) => fields(7, x, 0, 0),
    }
}

// Stores a frame in four bytes.
fn put_narrow(out: &mut [u8], at: usize, f: Fields)
    requires { Fits Form.Narrow f × (at + 4 ≤ length out.old) }
    ensures { out.new ≡ sets out.old at (frame_of Form.Narrow f) }
{
    let bytes = [f.k, f.a as u8, f.b as u8, f.c as u8];
    out[at..at + 4].copy_from_slice(&bytes);
}

// The same in seven, the higher byte of each field first.
fn put_wide(out: &mut [u8], at: usize, f: Fields)
    requires { Fits Form.Wide f × (at + 7 ≤ length out.old) }
    ensures { out.new ≡ sets out.old at (frame_of Form.Wide f) }
{
    let [a1, a0] = f.a.to_be_bytes();
    let [b1, b0] = f.b.to_be_bytes();
    let [c1, c0] = f.c.to_be_bytes();
    let bytes = [f.k, a1, a0, b1, b0, c1, c0];
    out[at..at + 7].copy_from_slice(&bytes);
}

// Stores the frame of that number.
fn put_frame(out: &mut [u8], form: Form, number: usize, f: Fields)
    requires { Fits form f × (frame_start form number + frame_bytes form ≤ length out.old) }
    ensures { out.new ≡ sets out.old (frame_start form number) (frame_of form f) }
{
    match form {
        Form::Narrow => put_narrow(out, number * 4, f),
        Form::Wide => put_wide(out, number * 7, f),
    }
}

// Writes the frames from the buffer's start, in the form's bytes.
pub fn write_frames(kinds: &[Kind], form: Form, out: &mut [u8])
    requires { AllFit form kinds.now × (frame_start form (length kinds.now) ≤ length out.old) }
    ensures { out.new ≡ sets out.old 0 (frames_bytes form kinds.now) }
{
    for (number, kind) in kinds.iter().enumerate() {
        put_frame(out, form, number, fields_of(*kind));
    }
}
