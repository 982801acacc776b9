// What is proposed to `try_absorb`: a cone for a node and a variable, and the quantifier. Nothing is proved of it but that it ends, since all of it is tested there.
ghost use Rattle.std.specs.Prelude.{◌<◌, length};
ghost use Rattle.net.specs.Layout.{frames_of, HasNode, Ground};

use crate::cone::free_word;
use net::{Op, frames, node_at};
use words::Word;

// The slot of a node of the cone that is computed.
const COMPUTED: u8 = 6;

pub const MOST_SIDES: usize = 5;

const MOST_WAITING: usize = 64;

// A cone that grows: how many side nodes it has, and how many of its gates wait to be looked at. A cone that is given up is None.
#[derive(Clone, Copy)]
struct Growth {
    sides: usize,
    waiting: usize,
}

impl Growth {
    // One gate that waited is looked at.
    fn looked_at(self) -> Option<Growth> {
        Some(Growth {
            waiting: self.waiting.checked_sub(1)?,
            ..self
        })
    }
}

// Node a is computed, and waits.
fn wait(slots: &mut [u8], a: usize, growth: Growth) -> Option<Growth>
    requires { a < length slots.old }
{
    if growth.waiting >= MOST_WAITING {
        return None;
    }
    slots[a] = COMPUTED;
    Some(Growth {
        waiting: growth.waiting + 1,
        ..growth
    })
}

// Node a is a side node, and stands for those that are not there.
fn stand_by(
    slots: &mut [u8],
    sides: &mut [usize; MOST_SIDES],
    a: usize,
    growth: Growth,
) -> Option<Growth>
    requires { a < length slots.old }
{
    if growth.sides >= MOST_SIDES {
        return None;
    }
    sides[growth.sides..].fill(a);
    slots[a] = (growth.sides + 1) as u8;
    Some(Growth {
        sides: growth.sides + 1,
        ..growth
    })
}

// Node a, which a gate of the cone names, joins it: what does not read y is a side node, but a NOT is computed, so that a node and its negation have one slot.
fn join(
    net: &[u64],
    frees: &[u64],
    y: u8,
    slots: &mut [u8],
    sides: &mut [usize; MOST_SIDES],
    a: usize,
    growth: Growth,
) -> Option<Growth>
    requires { HasNode net.now a × (y < 64) × (a < length frees.now) × (a < length slots.old) }
{
    if slots[a] != 0 {
        return Some(growth);
    }
    let op = node_at(net, a).op;
    if op != Op::Not && !frees[a].has(y) {
        return stand_by(slots, sides, a, growth);
    }
    match op {
        Op::Input => {
            slots[a] = COMPUTED;
            Some(growth)
        }
        Op::Exists | Op::Forall => None,
        Op::False | Op::True | Op::Not | Op::And | Op::Or => wait(slots, a, growth),
    }
}

// What node k names joins the cone, if node k waits in it.
fn expand(
    net: &[u64],
    frees: &[u64],
    y: u8,
    slots: &mut [u8],
    sides: &mut [usize; MOST_SIDES],
    k: usize,
    growth: Growth,
) -> Option<Growth>
    requires { Ground net.now × (k < frames_of net.now) × (y < 64) × (k < length frees.now) × (k < length slots.old) }
{
    if slots[k] != COMPUTED {
        return Some(growth);
    }
    let node = node_at(net, k);
    match node.op {
        Op::False | Op::True | Op::Input => Some(growth),
        Op::Not => join(net, frees, y, slots, sides, node.left, growth.looked_at()?),
        Op::And | Op::Or => {
            let one = join(net, frees, y, slots, sides, node.left, growth.looked_at()?)?;
            join(net, frees, y, slots, sides, node.right, one)
        }
        Op::Exists | Op::Forall => None,
    }
}

// The cone of node g over y, from g down to where no gate waits; tells how many side nodes it has. A step that is made is taken from the steps that may be.
pub fn grow(
    net: &[u64],
    g: usize,
    y: u8,
    steps: &mut usize,
    frees: &[u64],
    slots: &mut [u8],
    sides: &mut [usize; MOST_SIDES],
) -> Option<usize>
    requires { Ground net.now × (g < frames_of net.now) × (y < 64) × (g < length frees.now) × (g < length slots.old) }
{
    slots[..g].fill(0);
    slots[g] = COMPUTED;
    let mut growth = Growth {
        sides: 0,
        waiting: 1,
    };
    for k in (0..g + 1).rev() {
        if growth.waiting == 0 {
            return Some(growth.sides);
        }
        *steps = steps.checked_sub(1)?;
        growth = expand(net, frees, y, slots, sides, k, growth)?;
    }
    Some(growth.sides)
}

// The last quantifier above node g that binds y.
pub fn binder(net: &[u64], g: usize, y: u8) -> Option<usize>
    requires { Ground net.now × (y < 64) }
{
    for k in (g..frames(net)).rev() {
        let node = node_at(net, k);
        if node.op.is_quantifier() && node.mask.has(y) {
            return Some(k);
        }
    }
    None
}

// The free variables of node k go into the table.
pub fn refresh(net: &[u64], k: usize, frees: &mut [u64])
    requires { Ground net.now × (k < frames_of net.now) × (k < length frees.old) }
{
    let word = free_word(node_at(net, k), &frees[..]);
    frees[k] = word;
}
