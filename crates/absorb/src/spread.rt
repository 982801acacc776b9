// Node g stored as an INPUT, and the bit that says so of it and of every node above it: those no longer stand for their frames.
ghost use Rattle.std.specs.Prelude.{◌≡◌, ◌<◌, true, false};
ghost use Rattle.sheet.specs.Fields.{Sheet};
ghost use Rattle.net.specs.Layout.{frames_of, packed, Ground};
ghost use Rattle.net.specs.Sheet.{NetOf};
ghost use Rattle.absorb.specs.Absorb.{Names};
ghost use Rattle.absorb.specs.Spread.{still, NotedAt, Spreading};
ghost use Rattle.absorb.specs.Sheet.{Absorbable};

use net::node::{NODES, put};
use net::{Op, changed, frames, node_at};

// Bit 3 of a node's first word.
const CHANGED: u64 = 8;

// Whether node k names a changed one.
fn names_changed(net: &[u64], k: usize) -> bool
    requires { Ground net.now × (k < frames_of net.now) }
    ensures { result ≡ false → Names (still net.now) (packed net.now k) }
{
    let node = node_at(net, k);
    match node.op {
        Op::False | Op::True | Op::Input => false,
        Op::Not | Op::Exists | Op::Forall => changed(net, node.left),
        Op::And | Op::Or => changed(net, node.left) || changed(net, node.right),
    }
}

// Node k is changed if it names a changed one.
fn spread_at(net: &mut [u64], k: usize)
    requires { Ground net.old × (k < frames_of net.old) }
    ensures { NotedAt net.old net.new k }
{
    if changed(&net[..], k) {
        return;
    }
    if !names_changed(&net[..], k) {
        return;
    }
    let at = NODES + 2 * k;
    let word = net[at];
    net[at] = word + CHANGED;
}

// Every node, from the first on.
fn spread(net: &mut [u64])
    requires { Ground net.old }
    ensures { Spreading net.old net.new (frames_of net.old) }
{
    for k in 0..frames(&net[..]) {
        spread_at(net, k);
    }
}

// Node g becomes INPUT y.
pub fn store(net: &mut [u64], g: usize, y: u8)
    requires { ((s : Sheet) × NetOf s net.old) × Absorbable net.old g y }
    ensures { (s : Sheet) → NetOf s net.old → NetOf s net.new }
{
    put(net, g, Op::Input.code() + CHANGED + 16 * u64::from(y), 0);
    spread(net);
}
