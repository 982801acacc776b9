// The cone of a node over y: its gates are computed for all values of y and of five side nodes at once, one lane of a word for each.
ghost use Rattle.std.specs.Prelude.{◌≡◌, ◌+◌, ◌<◌, ◌≤◌, true, length};
ghost use Rattle.net.specs.Op.{code_of};
ghost use Rattle.net.specs.Net.{value};
ghost use Rattle.net.specs.Layout.{frames_of, packed, Ground};
ghost use Rattle.absorb.specs.Absorb.{Turns};
ghost use Rattle.absorb.specs.Cone.{at, free_word, pattern, gate_word, lane_word, Gate, PlacedAt, FreeTable, LaneTable, NearNode, node_as, SideOk, SidesOk};

use crate::propose::MOST_SIDES;
use net::{Node, Op, node_at};
use words::Word;

// The words of y and of the side nodes 1 to 5.
const Y: u64 = 0xAAAAAAAAAAAAAAAA;

const SIDE_1: u64 = 0xCCCCCCCCCCCCCCCC;

const SIDE_2: u64 = 0xF0F0F0F0F0F0F0F0;

const SIDE_3: u64 = 0xFF00FF00FF00FF00;

const SIDE_4: u64 = 0xFFFF0000FFFF0000;

const SIDE_5: u64 = 0xFFFFFFFF00000000;

// The lanes in which y is false.
const EVEN: u64 = 0x5555555555555555;

// ---- free variables

// The free variables of a node, from those of the nodes that it names.
#[tactic(auto, unfolding(crate::specs::Cone::free_word, net::specs::Net::node_of))]
pub fn free_word(node: Node, words: &[u64]) -> u64
    requires { NearNode (length words.now) node }
    ensures { result ≡ free_word (at words.now) (node_as node) }
{
    match node.op {
        Op::False | Op::True => 0,
        Op::Input => u64::one(node.left as u8),
        Op::Not => words[node.left],
        Op::And | Op::Or => words[node.left] | words[node.right],
        Op::Exists | Op::Forall => words[node.left].without(node.mask),
    }
}

// Those of the first n nodes.
pub fn free_words(net: &[u64], n: usize, words: &mut [u64])
    requires { Ground net.now × (n ≤ frames_of net.now) × (n ≤ length words.old) }
    ensures { FreeTable net.now words.new n }
{
    for k in 0..n {
        let w = free_word(node_at(net, k), &words[..]);
        words[k] = w;
    }
}

// ---- lanes

// The lanes of a slot: y, or a side node. A slot is a number, since it is the place of a pattern and, less 1, of a side node.
#[tactic(auto, unfolding(crate::specs::Cone::pattern))]
fn pattern_of(slot: u8) -> u64
    ensures { result ≡ pattern slot }
{
    match slot {
        0 => Y,
        1 => SIDE_1,
        2 => SIDE_2,
        3 => SIDE_3,
        4 => SIDE_4,
        _ => SIDE_5,
    }
}

// The lanes of a gate, from those of the nodes that it names.
#[tactic(auto, unfolding(crate::specs::Cone::gate_word, crate::specs::Cone::pattern, net::specs::Net::node_of))]
fn gate_word(node: Node, words: &[u64]) -> u64
    requires { NearNode (length words.now) node }
    ensures { result ≡ gate_word (at words.now) (node_as node) }
{
    match node.op {
        Op::False => 0,
        Op::True => 0xFFFFFFFFFFFFFFFF,
        Op::Input => Y,
        Op::Not => !words[node.left],
        Op::And => words[node.left] & words[node.right],
        Op::Or => words[node.left] | words[node.right],
        Op::Exists | Op::Forall => 0,
    }
}

// The lanes of a node by its slot.
#[tactic(auto, unfolding(crate::specs::Cone::lane_word))]
fn lane_at(node: Node, slot: u8, words: &[u64]) -> u64
    requires { NearNode (length words.now) node }
    ensures { result ≡ lane_word words.now slot (code_of node.op) node.left node.right node.mask }
{
    if slot < 6 {
        return pattern_of(slot);
    }
    gate_word(node, words)
}

// Whether a gate may be computed: a constant, y, or a gate of nodes of the cone.
#[tactic(auto, unfolding(net::specs::Net::node_of))]
fn gate_ok(node: Node, slots: &[u8], y: u8) -> bool
    requires { NearNode (length slots.now) node }
    ensures { result ≡ true → Gate y (at slots.now) (node_as node) }
{
    match node.op {
        Op::False | Op::True => true,
        Op::Input => node.left == usize::from(y),
        Op::Not => slots[node.left] != 0,
        Op::And | Op::Or => slots[node.left] != 0 && slots[node.right] != 0,
        Op::Exists | Op::Forall => false,
    }
}

// Whether node k has its place in the cone.
fn place_ok(node: Node, slots: &[u8], sides: &[usize; MOST_SIDES], k: usize, y: u8) -> bool
    requires { NearNode (length slots.now) node × (k < length slots.now) }
    ensures { result ≡ true → PlacedAt y slots.now sides.now (code_of node.op) node.left node.right node.mask k }
{
    let slot = slots[k];
    if slot > 5 {
        return gate_ok(node, slots, y);
    }
    slot == 0 || sides[usize::from(slot - 1)] == k
}

// The lanes of the first `top` nodes, and whether the cone among them is in order.
fn lanes(
    net: &[u64],
    y: u8,
    slots: &[u8],
    sides: &[usize; MOST_SIDES],
    top: usize,
    words: &mut [u64],
) -> bool
    requires { Ground net.now × (top ≤ frames_of net.now) × (top ≤ length slots.now) × (top ≤ length words.old) }
    ensures { result ≡ true → LaneTable net.now y slots.now sides.now words.new top }
{
    for k in 0..top {
        let node = node_at(net, k);
        if !place_ok(node, slots, sides, k, y) {
            return false;
        }
        let w = lane_at(node, slots[k], &words[..]);
        words[k] = w;
    }
    true
}

// ---- the test

// Whether node s is one of the first n, and does not read y.
fn side_ok(s: usize, frees: &[u64], n: usize, y: u8) -> bool
    requires { (n ≤ length frees.now) × (y < 64) }
    ensures { result ≡ true → SideOk frees.now n y s }
{
    s < n && !frees[s].has(y)
}

// Whether none of the five side nodes reads y.
fn sides_ok(sides: &[usize; MOST_SIDES], frees: &[u64], n: usize, y: u8) -> bool
    requires { (n ≤ length frees.now) × (y < 64) }
    ensures { result ≡ true → SidesOk sides.now frees.now n y 5 }
{
    sides.iter().all(|s| side_ok(*s, frees, n, y))
}

// Whether node g flips with y, by the lanes of its cone.
pub fn turns(
    net: &[u64],
    y: u8,
    slots: &[u8],
    sides: &[usize; MOST_SIDES],
    g: usize,
    frees: &[u64],
    words: &mut [u64],
) -> bool
    requires grounded { Ground net.now × FreeTable net.now frees.now (g + 1) × (y < 64) × (g < frames_of net.now) }
    requires g_in_bounds { (g < length slots.now) × (g < length frees.now) × (g < length words.old) }
    ensures { result ≡ true → Turns y (value (packed net.now) g) }
{
    if slots[g] == 0
        || !sides_ok(sides, frees, g + 1, y)
        || !lanes(net, y, slots, sides, g + 1, words)
    {
        return false;
    }
    let w = words[g];
    (w ^ (w >> 1)) & EVEN == EVEN
}
