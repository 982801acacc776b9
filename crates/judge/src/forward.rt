// Three-valued judging of nodes under a partial assignment, with a reason for each known value.
ghost use Rattle.std.specs.Prelude.{◌≡◌, List, ℕ, ◌*◌, ◌<◌, ◌≤◌, length};
ghost use Rattle.net.specs.Layout.{HasNode, Ground};
ghost use Rattle.net.specs.Op.{code_of};
ghost use Rattle.judge.specs.Cells.{HasCell, Vacant};
ghost use Rattle.judge.specs.Judge.{Judged, Right, RightInput, RightLeaf, Negated, Joined, Bound, Judging};

use crate::cells::{Known, known_at};
use crate::{cells, dirty};
use cube::Cube64;
use net::node::{decided, gate_decided};
use net::{Op, node_at};
use words::Word;

// Every variable, as a mask: all nodes are to be judged.
pub const ALL: u64 = u64::MAX;

pub fn variable(left: usize) -> u8
    requires { left < 64 }
    ensures { result ≡ left }
{
    left as u8
}

// An input is known where the cube fixes its variable.
fn input(cube: Cube64, v: u8) -> Known
    requires { v < 64 }
    ensures { RightInput cube.mask cube.values v result.value result.reason }
{
    if cube.mask.has(v) {
        let only = u64::one(v);
        if cube.values.has(v) {
            return Known {
                value: 2,
                reason: only,
            };
        }
        return Known {
            value: 1,
            reason: only,
        };
    }
    Known {
        value: 0,
        reason: 0,
    }
}

// A constant or an input.
pub fn leaf(op: Op, left: usize, cube: Cube64) -> Known
    requires { (code_of op < 3) × (code_of op ≡ 2 → left < 64) }
    ensures { RightLeaf (code_of op) left cube.mask cube.values result.value result.reason }
{
    match op {
        Op::False => Known {
            value: 1,
            reason: 0,
        },
        Op::True => Known {
            value: 2,
            reason: 0,
        },
        _ => input(cube, variable(left)),
    }
}

pub fn negated(x: Known) -> Known
    requires { x.value < 4 }
    ensures { Negated x.value x.reason result.value result.reason }
{
    if x.value == 0 {
        return x;
    }
    Known {
        value: 3 - x.value,
        reason: x.reason,
    }
}

// A gate that the value d decides: AND by 1, OR by 2.
pub fn joined(d: u8, x: Known, y: Known) -> Known
    ensures { Joined d x.value x.reason y.value y.reason result.value result.reason }
{
    if x.value == d {
        return x;
    }
    if y.value == d {
        return y;
    }
    if x.value == y.value {
        return Known {
            value: x.value,
            reason: x.reason | y.reason,
        };
    }
    Known {
        value: 0,
        reason: 0,
    }
}

// A quantifier over the mask that the value d decides: EXISTS by 2, FORALL by 1.
pub fn bound(d: u8, mask: u64, x: Known) -> Known
    ensures { Bound d mask x.value x.reason result.value result.reason }
{
    if x.value == d {
        return Known {
            value: d,
            reason: x.reason.without(mask),
        };
    }
    if x.value == 0 {
        return x;
    }
    if x.reason & mask == 0 {
        return x;
    }
    Known {
        value: 0,
        reason: 0,
    }
}

// What is known of node k, from what is known of the nodes that it names. This and `judge_vacant` are the innermost work of a search, and no calls.
#[inline(always)]
fn judge_node(net: &[u64], k: usize, cube: Cube64, cells: &[u64]) -> Known
    requires { Ground net.now × HasNode net.now k × Judged net.now cube.mask cube.values cells.now }
    ensures { Right net.now cube.mask cube.values k result.value result.reason }
{
    let node = node_at(net, k);
    match node.op {
        Op::False | Op::True | Op::Input => leaf(node.op, node.left, cube),
        Op::Not => negated(known_at(cells, node.left)),
        Op::And | Op::Or => joined(
            gate_decided(node.op),
            known_at(cells, node.left),
            known_at(cells, node.right),
        ),
        Op::Exists | Op::Forall => bound(decided(node.op), node.mask, known_at(cells, node.left)),
    }
}

// Node k is set to a value that is right, where nothing is known of it yet. The answer is the chain's new head.
pub fn keep(cells: &mut [u64], k: usize, known: Known, head: u16) -> u16
    requires { HasCell cells.old k × (k < 65535) × (0 < known.value) × (known.value < 3) }
    ensures { (net : List ℕ) (m w : ℕ) → Judged net m w cells.old → Right net m w k known.value known.reason → Judging net m w cells.old head cells.new result }
{
    if cells::vacant(&cells[..], k) {
        return cells::put(cells, k, known, head);
    }
    head
}

// Node k, of which nothing is known, is judged.
#[inline(always)]
fn judge_vacant(net: &[u64], k: usize, cube: Cube64, cells: &mut [u64], head: u16) -> u16
    requires { Ground net.now × HasNode net.now k × Judged net.now cube.mask cube.values cells.old × Vacant cells.old k }
    ensures { Judging net.now cube.mask cube.values cells.old head cells.new result }
{
    let known = judge_node(net, k, cube, &cells[..]);
    if known.value == 0 {
        return head;
    }
    cells::put(cells, k, known, head)
}

// Node k is judged where nothing is known of it yet.
fn judge_next(net: &[u64], k: usize, cube: Cube64, cells: &mut [u64], head: u16) -> u16
    requires { Ground net.now × HasNode net.now k × Judged net.now cube.mask cube.values cells.old }
    ensures { Judging net.now cube.mask cube.values cells.old head cells.new result }
{
    if cells::vacant(&cells[..], k) {
        return judge_vacant(net, k, cube, cells, head);
    }
    head
}

// What is known of the nodes 0 to a under the cube; what is known already stays. The test stands in the loop, where most nodes need no call.
fn judge_all(net: &[u64], a: usize, cube: Cube64, cells: &mut [u64], head: u16) -> u16
    requires { Ground net.now × HasNode net.now a × Judged net.now cube.mask cube.values cells.old }
    ensures { Judging net.now cube.mask cube.values cells.old head cells.new result }
{
    let mut at = head;
    for k in 0..a + 1 {
        if cells::vacant(&cells[..], k) {
            at = judge_vacant(net, k, cube, cells, at);
        }
    }
    at
}

// The nodes that name node k are to be judged, if it was set.
fn spread(net: &[u64], k: usize, a: usize, set: bool, marks: &mut [u64])
    requires { Ground net.now × HasNode net.now k × (a < 64 * length marks.old) }
{
    if set {
        dirty::mark_users(net, k, a, marks);
    }
}

// The same, of nodes that the fresh variables may have touched, and of those behind the frames. The marks are empty.
fn judge_marked(
    net: &[u64],
    a: usize,
    fresh: u64,
    cube: Cube64,
    cells: &mut [u64],
    head: u16,
    marks: &mut [u64],
) -> u16
    requires { Ground net.now × HasNode net.now a × Judged net.now cube.mask cube.values cells.old × (a < 64 * length marks.old) }
    ensures { Judging net.now cube.mask cube.values cells.old head cells.new result }
{
    dirty::mark_readers(net, fresh, a, marks);
    dirty::mark_behind(net, a, marks);
    let mut at = head;
    let mut k = dirty::next(&marks[..], 0, a);
    while k <= a {
        let old = at;
        at = judge_next(net, k, cube, cells, at);
        spread(net, k, a, at != old, marks);
        k = dirty::next(&marks[..], k + 1, a);
    }
    at
}

// The same, with a set of as many words.
fn judge_sized<const WORDS: usize>(
    net: &[u64],
    a: usize,
    fresh: u64,
    cube: Cube64,
    cells: &mut [u64],
    head: u16,
) -> u16
    requires { Ground net.now × HasNode net.now a × Judged net.now cube.mask cube.values cells.old × (a < 64 * WORDS) × (WORDS ≤ 64) }
    ensures { Judging net.now cube.mask cube.values cells.old head cells.new result }
{
    let mut marks = [0u64; WORDS];
    judge_marked(net, a, fresh, cube, cells, head, &mut marks)
}

// The nodes are judged: those that the fresh variables may have touched, or all of them.
pub fn judge(net: &[u64], a: usize, fresh: u64, cube: Cube64, cells: &mut [u64], head: u16) -> u16
    requires { Ground net.now × HasNode net.now a × Judged net.now cube.mask cube.values cells.old }
    ensures { Judging net.now cube.mask cube.values cells.old head cells.new result }
{
    if fresh == ALL {
        return judge_all(net, a, cube, cells, head);
    }
    if a < 256 {
        return judge_sized::<4>(net, a, fresh, cube, cells, head);
    }
    judge_sized::<64>(net, a, fresh, cube, cells, head)
}
