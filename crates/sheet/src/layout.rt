// The fields of a frame: the only place that knows its bytes.
ghost use Rattle.std.specs.Prelude.{◌≡◌, ◌+◌, ◌*◌};
ghost use Rattle.sheet.specs.Fields.{sheet_of, fields_at};

use crate::Fields;
use form::Form;

// Two bytes, the highest first.
fn pair(high: u8, low: u8) -> u16
    ensures { result ≡ high * 256 + low }
{
    u16::from_be_bytes([high, low])
}

// Of a frame of four bytes. Not one function with the next: a wide field is two bytes, and with a size that is no literal a proof would multiply two unknowns.
#[tactic(auto, unfolding(crate::specs::Fields::fields_at))]
fn narrow_at(bytes: &[u8], number: usize) -> Fields
    ensures { result ≡ fields_at (sheet_of Form.Narrow bytes.now) number }
{
    if number < bytes.len() / 4 {
        let at = number * 4;
        return Fields {
            k: bytes[at],
            a: u16::from(bytes[at + 1]),
            b: u16::from(bytes[at + 2]),
            c: u16::from(bytes[at + 3]),
        };
    }
    Fields::default()
}

// Of a frame of seven bytes.
#[tactic(auto, unfolding(crate::specs::Fields::fields_at))]
fn wide_at(bytes: &[u8], number: usize) -> Fields
    ensures { result ≡ fields_at (sheet_of Form.Wide bytes.now) number }
{
    if number < bytes.len() / 7 {
        let at = number * 7;
        return Fields {
            k: bytes[at],
            a: pair(bytes[at + 1], bytes[at + 2]),
            b: pair(bytes[at + 3], bytes[at + 4]),
            c: pair(bytes[at + 5], bytes[at + 6]),
        };
    }
    Fields::default()
}

// The fields of the frame of that number; past the last whole frame all are 0.
pub fn fields_at(bytes: &[u8], form: Form, number: usize) -> Fields
    ensures { result ≡ fields_at (sheet_of form bytes.now) number }
{
    match form {
        Form::Narrow => narrow_at(bytes, number),
        Form::Wide => wide_at(bytes, number),
    }
}
