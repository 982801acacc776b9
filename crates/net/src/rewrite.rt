// The first rewrite: a quantifier directly over one of its kind binds the variables of both.
ghost use Rattle.std.specs.Prelude.{◌<◌};
ghost use Rattle.net.specs.Layout.{frames_of};
ghost use Rattle.sheet.specs.Fields.{Sheet};
ghost use Rattle.net.specs.Sheet.{NetOf};

use crate::node::{changed, frames, node_at, put, word};

// Node k, if it is such a quantifier and not changed.
fn nest_at(net: &mut [u64], k: usize)
    requires { ((s : Sheet) × NetOf s net.old) × (k < frames_of net.old) }
    ensures { (s : Sheet) → NetOf s net.old → NetOf s net.new }
{
    let outer = node_at(&net[..], k);
    if !outer.op.is_quantifier() || changed(&net[..], k) {
        return;
    }
    let inner = node_at(&net[..], outer.left);
    if inner.op == outer.op {
        put(
            net,
            k,
            word(outer.op, inner.left, 0),
            outer.mask | inner.mask,
        );
    }
}

// Every node, from the first on, so that a row of quantifiers becomes one.
pub fn nest(net: &mut [u64])
    requires { (s : Sheet) × NetOf s net.old }
    ensures { (s : Sheet) → NetOf s net.old → NetOf s net.new }
{
    for k in 0..frames(&net[..]) {
        nest_at(net, k);
    }
}
