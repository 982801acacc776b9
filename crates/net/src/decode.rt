// A checked sheet decoded into a net, by a reader that is stepped along it.
ghost use Rattle.std.specs.Prelude.{◌≡◌, ◌<◌, length, set};
ghost use Rattle.sheet.specs.Fields.{sheet_of, frames};
ghost use Rattle.sheet.specs.Frames.{Fit};
ghost use Rattle.sheet.specs.Rules as Rules;
ghost use Rattle.net.specs.Decode.{node_of_kind};
ghost use Rattle.net.specs.Layout.{unpack};
ghost use Rattle.net.specs.Sheet.{Checked, NetOf};
ghost use Rattle.net.specs.Load.{bound_of, Empty, Loading};

use crate::node::{Op, put, word};
use crate::rewrite::nest;
use form::Form;
use sheet::reader::Reader;
use sheet::{Accepted, Kind};

// The variables that a frame of this kind binds.
#[tactic(auto, unfolding(crate::specs::Load::bound_of))]
fn mask_of(kind: Kind) -> u64
    requires { Fit 64 4096 kind }
    ensures { result ≡ bound_of kind }
{
    match kind {
        Kind::Exists(_, b, c) | Kind::Forall(_, b, c) => sheet::range_word(b, c),
        _ => 0,
    }
}

// The first word of the frame's node.
#[tactic(auto, unfolding(crate::specs::Decode::node_of_kind, crate::specs::Net::node_of, crate::specs::Load::bound_of, crate::specs::Layout::unpack))]
fn word_of(kind: Kind) -> u64
    requires { Fit 64 4096 kind }
    ensures { unpack result (bound_of kind) ≡ node_of_kind kind }
{
    match kind {
        Kind::Never => 0,
        Kind::Input(x) | Kind::Gauge(x) => word(Op::Input, usize::from(x), 0),
        Kind::Not(a) => word(Op::Not, usize::from(a), 0),
        Kind::And(a, b) => word(Op::And, usize::from(a), usize::from(b)),
        Kind::Or(a, b) => word(Op::Or, usize::from(a), usize::from(b)),
        Kind::Exists(a, _, _) => word(Op::Exists, usize::from(a), 0),
        Kind::Forall(a, _, _) => word(Op::Forall, usize::from(a), 0),
    }
}

// Each frame becomes its node, in the order in which a reader takes them.
fn load_frames(sheet: &[u8], form: Form, net: &mut [u64])
    requires { Loading (sheet_of form sheet.now) net.old 0 }
    ensures { Loading (sheet_of form sheet.now) net.new (frames (sheet_of form sheet.now)) }
{
    for frame in Reader::new(sheet, form, 0) {
        put(net, frame.number, word_of(frame.kind), mask_of(frame.kind));
    }
}

// How many frames there are, the free variables of the last, and the gauges.
fn head(net: &mut [u64], frames: usize, accepted: Accepted)
    requires { 2 < length net.old }
    ensures { net.new ≡ set (set (set net.old 0 frames) 1 accepted.free) 2 accepted.gauges }
{
    net[0] = frames as u64;
    net[1] = accepted.free;
    net[2] = accepted.gauges;
}

// The whole sheet, with neighbouring quantifiers joined. Links come later, behind whatever else is rewritten. The net has room for every sheet of the form and three nodes more, and is empty.
pub fn load(sheet: &[u8], form: Form, accepted: Accepted, net: &mut [u64])
    requires { Checked (sheet_of form sheet.now) accepted.free × (accepted.gauges ≡ Rules.gauges (sheet_of form sheet.now)) × Empty form net.old }
    ensures { NetOf (sheet_of form sheet.now) net.new }
{
    load_frames(sheet, form, net);
    head(net, form::frames(form, sheet.len()), accepted);
    nest(net);
}
