// The words of a net, and how they are read:
//   0          how many frames the sheet has; frame k is node k
//   1          the free variables of the last frame
//   2          the gauges
//   3 to 66    for each variable the last node that reads it (links.rt)
//   67 + 2k    node k: three bits of op, whether it is changed, twelve of left, twelve of right, and three links of twelve bits (links.rt)
//   68 + 2k    its mask
ghost use Rattle.std.specs.Prelude.{◌≡◌, ℕ, ◌+◌, ◌-◌, ◌*◌, ◌%◌, ◌<◌, ◌≤◌, true, false, length, set};
ghost use Rattle.net.specs.Op.{code_of};
ghost use Rattle.net.specs.Net.{node_of};
ghost use Rattle.net.specs.Layout.{net_form, frames_of, free_of, gauges_of, first_word, second_word, HasNode, unpack, changed, Is, decides};

use form::Form;

// Where the nodes begin.
pub const NODES: usize = 67;

// The words of a narrow sheet's net: 200 nodes and three more.
const NARROW_WORDS: usize = 473;

// The form of the net's sheet: a wide one has room for more nodes.
#[tactic(auto, unfolding(crate::specs::Layout::net_form))]
pub fn form(net: &[u64]) -> Form
    ensures { result ≡ net_form net.now }
{
    form::of(net.len() > NARROW_WORDS)
}

// What a node is. An INPUT has its variable on its left side, a NOT and a quantifier the node under it.
#[derive(Clone, Copy, PartialEq, Eq)]
pub enum Op {
    False,
    True,
    Input,
    Not,
    And,
    Or,
    Exists,
    Forall,
}

impl Op {
    // The number by which a word tells it.
    pub fn code(self) -> u64
        ensures { result ≡ code_of self }
    {
        self as u64
    }

    pub fn is_quantifier(self) -> bool
        ensures { (result ≡ true → 6 ≤ code_of self) × (result ≡ false → code_of self < 6) }
    {
        matches!(self, Op::Exists | Op::Forall)
    }
}

// What the three low bits of a word say.
fn op_of(word: u64) -> Op
    ensures { code_of result ≡ word % 8 }
{
    match word % 8 {
        0 => Op::False,
        1 => Op::True,
        2 => Op::Input,
        3 => Op::Not,
        4 => Op::And,
        5 => Op::Or,
        6 => Op::Exists,
        _ => Op::Forall,
    }
}

#[derive(Clone, Copy)]
pub struct Node {
    pub op: Op,
    pub left: usize,
    pub right: usize,
    pub mask: u64,
}

pub fn frames(net: &[u64]) -> usize
    requires { 1 < length net.now }
    ensures { result ≡ frames_of net.now }
{
    net[0] as usize
}

pub fn free(net: &[u64]) -> u64
    requires { 1 < length net.now }
    ensures { result ≡ free_of net.now }
{
    net[1]
}

pub fn gauges(net: &[u64]) -> u64
    requires { 2 < length net.now }
    ensures { result ≡ gauges_of net.now }
{
    net[2]
}

pub fn node_at(net: &[u64], k: usize) -> Node
    requires { HasNode net.now k }
    ensures is { Is net.now k (code_of result.op) result.left result.right result.mask }
    ensures op_bound { (code_of result.op < 8) × (result.left < 4096) × (result.right < 4096) }
{
    let at = NODES + 2 * k;
    let word = net[at];
    Node {
        op: op_of(word),
        left: (word / 16 % 4096) as usize,
        right: (word / 65536 % 4096) as usize,
        mask: net[at + 1],
    }
}

// Whether node k is changed: it need not stand for its frame, and no record is one of it.
#[tactic(auto, unfolding(crate::specs::Layout::changed))]
pub fn changed(net: &[u64], k: usize) -> bool
    requires { HasNode net.now k }
    ensures { result ≡ changed net.now k }
{
    net[NODES + 2 * k] % 16 > 7
}

// The value that decides a quantifier: 2, true, an EXISTS, 1, false, a FORALL.
#[tactic(auto, unfolding(crate::specs::Layout::decides))]
pub fn decided(op: Op) -> u8
    ensures { result ≡ decides (code_of op) }
{
    if op == Op::Exists { 2 } else { 1 }
}

// The value that decides a gate: 1 an AND, 2 an OR.
pub fn gate_decided(op: Op) -> u8
    requires { (4 ≤ code_of op) × (code_of op < 6) }
    ensures { result ≡ code_of op - 3 }
{
    if op == Op::Or { 2 } else { 1 }
}

// The first word of a node that is not changed, without links.
#[tactic(auto, using(crate::specs::StoreLaws::word_node))]
pub fn word(op: Op, left: usize, right: usize) -> u64
    requires { (left < 4096) × (right < 4096) }
    ensures { (mask : ℕ) → unpack result mask ≡ node_of (code_of op) left right mask }
{
    op.code() + 16 * (left as u64) + 65536 * (right as u64)
}

// Stores the words of node k.
pub fn put(net: &mut [u64], k: usize, word: u64, mask: u64)
    requires { HasNode net.old k }
    ensures { net.new ≡ set (set net.old (first_word k) word) (second_word k) mask }
{
    let at = NODES + 2 * k;
    net[at] = word;
    net[at + 1] = mask;
}
