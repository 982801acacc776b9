// A frame's four bytes, written where there is room.
ghost use Rattle.std.specs.Prelude.{◌≡◌, ◌+◌, ◌*◌, ◌<◌, ◌≤◌, length};
ghost use Rattle.std.proofs.lemmas.List.Edits.{sets};
ghost use Rattle.prenex.specs.Kinds.{frame_bytes};
ghost use Rattle.prenex.specs.Writing.{FitBytes};

use sheet::Kind;

// The most frames of a sheet, the bytes of one, and the room of all.
pub const MOST: u16 = 200;

const BYTES: usize = 4;

pub const SHEET_BYTES: usize = 800;

// The bytes of a frame.
#[tactic(auto, unfolding(crate::specs::Kinds::frame_bytes))]
fn bytes_of(kind: Kind) -> [u8; BYTES]
    requires { FitBytes kind }
    ensures { result ≡ frame_bytes kind }
{
    match kind {
        Kind::Never => [0, 0, 0, 0],
        Kind::Input(x) => [1, x as u8, 0, 0],
        Kind::Not(a) => [2, a as u8, 0, 0],
        Kind::And(a, b) => [3, a as u8, b as u8, 0],
        Kind::Or(a, b) => [4, a as u8, b as u8, 0],
        Kind::Exists(a, b, c) => [5, a as u8, b as u8, c as u8],
        Kind::Forall(a, b, c) => [6, a as u8, b as u8, c as u8],
        Kind::Gauge(x) => [7, x as u8, 0, 0],
    }
}

// Writes frame n; past the last that a sheet can have, nothing.
pub fn put(out: &mut [u8; SHEET_BYTES], n: u16, kind: Kind)
    requires { n < 200 → FitBytes kind }
    ensures { out.new ≡ sets out.old (n * 4) (frame_bytes kind) }
{
    if n < MOST {
        let at = usize::from(n) * BYTES;
        out[at..at + BYTES].copy_from_slice(&bytes_of(kind));
    }
}
