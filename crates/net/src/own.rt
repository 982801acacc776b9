// The quantifiers of a question, behind the frames: the first over the last frame, each other one over the one before it. There they are nodes like any other.
ghost use Rattle.std.specs.Prelude.{◌≡◌, ◌-◌, ◌<◌};
ghost use Rattle.net.specs.Op.{code_of};
ghost use Rattle.net.specs.Layout.{Ground, frames_of, number};
ghost use Rattle.net.specs.Own.{Chosen, Forgotten};

use crate::node::{Op, frames, put, word};

// The quantifier that a truth decides.
fn quantifier(d: bool) -> Op
    ensures { code_of result ≡ 8 - number d }
{
    if d { Op::Exists } else { Op::Forall }
}

// Puts the quantifier that the truth d decides (true an EXISTS, false a FORALL) over the mask at place i: 0, 1 or 2.
pub fn choose(net: &mut [u64], i: usize, d: bool, mask: u64)
    requires { Ground net.old × (0 < frames_of net.old) × (i < 3) }
    ensures { Chosen net.old i (number d) mask net.new }
{
    let at = frames(&net[..]) + i;
    put(net, at, word(quantifier(d), at - 1, 0), mask);
}

// Empties the three places again.
pub fn forget(net: &mut [u64])
    requires { Ground net.old }
    ensures { Forgotten net.old net.new }
{
    let n = frames(&net[..]);
    put(net, n, 0, 0);
    put(net, n + 1, 0, 0);
    put(net, n + 2, 0, 0);
}
