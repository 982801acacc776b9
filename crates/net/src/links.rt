// Links: which nodes name a node, and which read a variable, so that judging goes where something changed. They stand in bits that `node_at` does not
// read: a link is a node's number and 1, or 0 for none. Nothing is proved of them but that they leave the net as it is, so that whoever follows them
// looks where he goes.
ghost use Rattle.std.specs.Prelude.{◌≡◌, ◌<◌, length, get_or};
ghost use Rattle.net.specs.Layout.{frames_of, first_word, HasNode, Ground};
ghost use Rattle.net.specs.Link.{low_part, Linked};

use crate::node::{NODES, Op, frames, node_at};

// Where the links of the variables begin.
pub const READERS: usize = 3;

// The bits of the first word: users of the node, then the next user of what its left side is, then of what its right side is.
const USERS: u64 = 268435456;

const LEFT: u64 = 1099511627776;

const RIGHT: u64 = 4503599627370496;

// Which link of a node's first word.
#[derive(Clone, Copy)]
enum Field {
    Users,
    Left,
    Right,
}

// ---- reading

fn link_in(word: u64, field: Field) -> usize
    ensures { result < 4096 }
{
    let link = match field {
        Field::Users => word / USERS % 4096,
        Field::Left => word / LEFT % 4096,
        Field::Right => word / RIGHT,
    };
    link as usize
}

// The last node that names node k.
pub fn user_of(net: &[u64], k: usize) -> usize
    requires { HasNode net.now k }
    ensures { result < 4096 }
{
    link_in(net[NODES + 2 * k], Field::Users)
}

// The last node that reads the variable.
pub fn reader_of(net: &[u64], variable: u8) -> usize
    requires { (variable < 64) × (67 < length net.now) }
    ensures { result < 4096 }
{
    (net[READERS + usize::from(variable)] % 4096) as usize
}

// The node that reads the variable of node k, or names what it names on its left side, before it.
pub fn next_left(net: &[u64], k: usize) -> usize
    requires { HasNode net.now k }
    ensures { result < 4096 }
{
    link_in(net[NODES + 2 * k], Field::Left)
}

// The node that names node i before node k does.
pub fn next_user(net: &[u64], k: usize, i: usize) -> usize
    requires { HasNode net.now k }
    ensures { result < 4096 }
{
    let word = net[NODES + 2 * k];
    let on_left = (word / 16 % 4096) as usize == i;
    link_in(word, if on_left { Field::Left } else { Field::Right })
}

// ---- making

#[tactic(auto, unfolding(crate::specs::Link::low_part))]
fn with_link(word: u64, field: Field, link: usize) -> u64
    requires { link < 4096 }
    ensures { low_part result ≡ low_part word }
{
    let link = link as u64;
    match field {
        Field::Users => word % USERS + USERS * link + word / LEFT * LEFT,
        Field::Left => word % LEFT + LEFT * link + word / RIGHT * RIGHT,
        Field::Right => word % RIGHT + RIGHT * link,
    }
}

fn word_at(net: &[u64], k: usize) -> u64
    requires { HasNode net.now k }
    ensures { result ≡ get_or net.now (first_word k) 0 }
{
    net[NODES + 2 * k]
}

// The first word of node k with other links.
fn relink(net: &mut [u64], k: usize, word: u64)
    requires { Ground net.old × (k < frames_of net.old) × (low_part word ≡ low_part (get_or net.old (first_word k) 0)) }
    ensures { Linked net.old net.new }
{
    net[NODES + 2 * k] = word;
}

// Node k becomes the last that reads the variable.
fn link_variable(net: &mut [u64], k: usize, variable: usize)
    requires { Ground net.old × (k < frames_of net.old) × (variable < 64) }
    ensures { Linked net.old net.new }
{
    let at = READERS + variable;
    let before = (net[at] % 4096) as usize;
    let word = with_link(word_at(&net[..], k), Field::Left, before);
    relink(net, k, word);
    net[at] = (k + 1) as u64;
}

// Node k becomes the last that names node i, which stands on that side of it.
fn link_named(net: &mut [u64], k: usize, side: Field, i: usize)
    requires { Ground net.old × (k < frames_of net.old) × (i < k) }
    ensures { Linked net.old net.new }
{
    let before = user_of(&net[..], i);
    let word = with_link(word_at(&net[..], k), side, before);
    relink(net, k, word);
    let named = with_link(word_at(&net[..], i), Field::Users, k + 1);
    relink(net, i, named);
}

// The links of node k. A gate that names one node twice names it once here.
fn link_at(net: &mut [u64], k: usize)
    requires { Ground net.old × (k < frames_of net.old) }
    ensures { Linked net.old net.new }
{
    let node = node_at(&net[..], k);
    match node.op {
        Op::False | Op::True => link_variable(net, k, 0),
        Op::Input => link_variable(net, k, node.left),
        Op::Not | Op::Exists | Op::Forall => link_named(net, k, Field::Left, node.left),
        Op::And | Op::Or => {
            link_named(net, k, Field::Left, node.left);
            if node.right != node.left {
                link_named(net, k, Field::Right, node.right);
            }
        }
    }
}

// The links of every node.
pub fn link(net: &mut [u64])
    requires { Ground net.old }
    ensures { Linked net.old net.new }
{
    for k in 0..frames(&net[..]) {
        link_at(net, k);
    }
}
