// Which gates are proposed: those that a sheet writes for "the two differ" or "the two are equal". Their sides are two gates over the same two nodes with opposite
// signs, and one of the nodes is an INPUT that nothing else uses. Nothing is proved of it but that it ends: nodes are looked at only where they are there.
ghost use Rattle.std.specs.Prelude.{◌<◌, length};

use net::node::NODES;
use net::{Node, Op, frames, free, node_at};
use words::Word;

const MOST_NODES: usize = 4096;

// Node a, or one that is false where there is none.
fn look(net: &[u64], a: usize) -> Node {
    if a < MOST_NODES {
        if NODES + 2 * a + 1 < net.len() {
            return node_at(net, a);
        }
    }
    Node {
        op: Op::False,
        left: 0,
        right: 0,
        mask: 0,
    }
}

// The variable that a node reads, as a word.
fn read_by(node: Node) -> u64 {
    if node.op == Op::Input {
        u64::one((node.left % 64) as u8)
    } else {
        0
    }
}

// ---- what is worth it

// So many variables bound below a quantifier, its own among them, make a search long enough for a rewrite: where a quantifier is below it, or else.
const ENOUGH: u32 = 8;

const ENOUGH_ALONE: u32 = 14;

fn word_at(words: &[u64], a: usize) -> u64 {
    words.get(a).copied().unwrap_or(0)
}

// The variables bound at a node or below, from those of the nodes that it names.
fn bound_below(node: Node, words: &[u64]) -> u64 {
    match node.op {
        Op::False | Op::True | Op::Input => 0,
        Op::Not => word_at(words, node.left),
        Op::And | Op::Or => word_at(words, node.left) | word_at(words, node.right),
        Op::Exists | Op::Forall => node.mask | word_at(words, node.left),
    }
}

// Those below a quantifier, if they are enough.
fn enough(node: Node, word: u64) -> u64 {
    if !node.op.is_quantifier() {
        return 0;
    }
    let least = if word == node.mask {
        ENOUGH_ALONE
    } else {
        ENOUGH
    };
    if word.count_ones() < least { 0 } else { word }
}

// The variables below quantifiers that have enough. The table is for those of each node.
pub fn deep(net: &[u64], words: &mut [u64]) -> u64
    requires { 1 < length net.now }
{
    let mut all: u64 = 0;
    for k in 0..frames(net) {
        let node = look(net, k);
        let word = bound_below(node, &words[..]);
        all |= enough(node, word);
        if let Some(place) = words.get_mut(k) {
            *place = word;
        }
    }
    all
}

// ---- the shape

// A node, or its negation.
#[derive(Clone, Copy, PartialEq, Eq)]
struct Literal {
    node: usize,
    negated: bool,
}

impl Literal {
    fn negation(self) -> Literal {
        Literal {
            negated: !self.negated,
            ..self
        }
    }
}

fn literal_at(net: &[u64], a: usize, negated: bool) -> Literal {
    let node = look(net, a);
    if node.op == Op::Not {
        return Literal {
            node: node.left,
            negated: !negated,
        };
    }
    Literal { node: a, negated }
}

// The literals of a gate.
#[derive(Clone, Copy)]
struct Sides {
    left: Literal,
    right: Literal,
}

fn sides_of(net: &[u64], gate: Node, negated: bool) -> Sides {
    Sides {
        left: literal_at(net, gate.left, negated),
        right: literal_at(net, gate.right, negated),
    }
}

fn is_gate(node: Node) -> bool {
    matches!(node.op, Op::And | Op::Or)
}

// The gate that is the other one: OR for AND.
fn other(op: Op) -> Op {
    if op == Op::And { Op::Or } else { Op::And }
}

// The literals of node a as that gate: itself, or the negation of the other gate under a NOT.
fn as_gate(net: &[u64], a: usize, op: Op) -> Option<Sides> {
    let node = look(net, a);
    if node.op == op {
        return Some(sides_of(net, node, false));
    }
    let below = look(net, node.left);
    if node.op == Op::Not && below.op == other(op) {
        return Some(sides_of(net, below, true));
    }
    None
}

// Whether both gates have the same two nodes with opposite signs.
fn exclude(u: Sides, v: Sides) -> bool {
    let left = v.left.negation();
    let right = v.right.negation();
    if u.left == left {
        return u.right == right;
    }
    u.left == right && u.right == left
}

// The literals that such a gate compares, if it is one.
fn compared(net: &[u64], gate: Node) -> Option<Sides> {
    if !is_gate(gate) {
        return None;
    }
    let u = as_gate(net, gate.left, other(gate.op))?;
    let v = as_gate(net, gate.right, other(gate.op))?;
    if exclude(u, v) { Some(u) } else { None }
}

// The variables that it compares.
pub fn operands(net: &[u64], gate: Node) -> u64 {
    match compared(net, gate) {
        Some(u) => read_by(look(net, u.left.node)) | read_by(look(net, u.right.node)),
        None => 0,
    }
}

// ---- the uses of variables

// The nodes that are reached, and the variables by how often these use them, as they are or under a NOT: at least once, twice, three times.
#[derive(Drop)]
struct Uses {
    reached: [u64; 64],
    once: u64,
    twice: u64,
    thrice: u64,
}

impl Uses {
    fn none() -> Uses {
        Uses {
            reached: [0; 64],
            once: 0,
            twice: 0,
            thrice: 0,
        }
    }

    fn add(&mut self, word: u64) {
        self.thrice |= self.twice & word;
        self.twice |= self.once & word;
        self.once |= word;
    }

    fn reach(&mut self, a: usize) {
        if a < MOST_NODES {
            self.reached[a / 64] |= 1u64 << (a % 64);
        }
    }

    fn is_reached(&self, a: usize) -> bool {
        a < MOST_NODES && (self.reached[a / 64] >> (a % 64)) % 2 == 1
    }

    // Node a is named: a use of the variable that it reads, itself or under a NOT.
    fn name(&mut self, net: &[u64], a: usize) {
        self.reach(a);
        let node = look(net, a);
        let read = if node.op == Op::Not {
            look(net, node.left)
        } else {
            node
        };
        self.add(read_by(read));
    }

    // What node k names is reached and used. The NOT of a variable is no use of it.
    fn name_all(&mut self, net: &[u64], k: usize) {
        let node = look(net, k);
        match node.op {
            Op::False | Op::True | Op::Input => {}
            Op::Not => {
                if look(net, node.left).op != Op::Input {
                    self.name(net, node.left);
                }
            }
            Op::And | Op::Or => {
                self.name(net, node.left);
                self.name(net, node.right);
            }
            Op::Exists | Op::Forall => self.name(net, node.left),
        }
    }
}

// The bound variables that the last frame uses at most twice: a gate that compares one of them uses it so often.
pub fn rare(net: &[u64]) -> u64
    requires { 1 < length net.now }
{
    let mut uses = Uses::none();
    let n = frames(net);
    if n > 0 {
        uses.reach(n - 1);
    }
    for k in (0..n).rev() {
        if uses.is_reached(k) {
            uses.name_all(net, k);
        }
    }
    uses.once.without(uses.thrice).without(free(net))
}

// Whether some gate compares one of the variables.
pub fn promising(net: &[u64], word: u64) -> bool
    requires { 1 < length net.now }
{
    word != 0
        && (0..frames(net))
            .rev()
            .any(|k| operands(net, look(net, k)) & word != 0)
}
