// A sheet's frames: what their bytes say, in either form, and whether the sheet keeps the rules.
#![tactic(auto)]

mod layout;
mod ranged;
pub mod reader;
pub mod refusal;
mod rules;
mod scan;

ghost use Rattle.std.specs.Prelude.{◌≡◌};
ghost use Rattle.sheet.specs.Fields.{sheet_of, kind_of, kind};

use form::Form;
use layout::fields_at;
pub use ranged::range_word;
pub use rules::{check_size, spare_set};
pub use scan::{Accepted, check, check_frames};

// K and A B C of a frame; past the last whole frame all are 0.
#[derive(Clone, Copy, PartialEq, Eq, Default)]
pub struct Fields {
    pub k: u8,
    pub a: u16,
    pub b: u16,
    pub c: u16,
}

// What a frame says. A named frame is a number below the frame's own; a range of variables is its first and how many.
#[derive(Clone, Copy, PartialEq, Eq)]
pub enum Kind {
    Never,
    Input(u16),
    Not(u16),
    And(u16, u16),
    Or(u16, u16),
    Exists(u16, u16, u16),
    Forall(u16, u16, u16),
    // Document 02's gauge: an INPUT of a variable that is read off and never chosen.
    Gauge(u16),
}

#[derive(Clone, Copy, PartialEq, Eq)]
pub struct Frame {
    pub number: usize,
    pub kind: Kind,
}

// The kind that a frame's fields say; a code above 7 gives `Never`.
#[tactic(auto, unfolding(crate::specs::Fields::kind_of))]
fn kind_of(f: Fields) -> Kind
    ensures { result ≡ kind_of f }
{
    let x = f.a;
    let y = f.b;
    let z = f.c;
    let code = f.k;
    match code {
        1 => Kind::Input(x),
        2 => Kind::Not(x),
        3 => Kind::And(x, y),
        4 => Kind::Or(x, y),
        5 => Kind::Exists(x, y, z),
        6 => Kind::Forall(x, y, z),
        7 => Kind::Gauge(x),
        _ => Kind::Never,
    }
}

// The frame of that number; past the last whole frame it is `Never`.
pub fn decode(bytes: &[u8], form: Form, number: usize) -> Frame
    ensures { (result.number ≡ number) × (result.kind ≡ kind (sheet_of form bytes.now) number) }
{
    let f = fields_at(bytes, form, number);
    Frame {
        number,
        kind: kind_of(f),
    }
}
