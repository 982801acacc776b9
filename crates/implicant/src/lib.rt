// A smaller reason for what a search found. Judging keeps the first reason that it comes to; here the values under the found word are gone through once more,
// and a gate that both its sides decide takes the side with fewer variables outside the search's own, which are dropped in the end. Such a reason settles more
// of the other candidates. How small it is has no promise.
#![tactic(auto)]

ghost use Rattle.std.specs.Prelude.{◌≡◌, true, ◌+◌, ◌<◌, ◌≤◌, length};
ghost use Rattle.words.specs.Word.{bit};
ghost use Rattle.formula.specs.Reason.{Explains};
ghost use Rattle.net.specs.Layout.{HasNode, Ground, formula_at, val};
ghost use Rattle.judge.specs.Judge.{Right, Joined};
ghost use Rattle.implicant.specs.Implicant.{Shows};

use cube::Cube64;
use judge::{Known, cells, forward, known_at};
use net::node::{decided, gate_decided};
use net::{Op, node_at};
use words::Word;

// How many variables a reason has outside `own`.
fn cost(reason: u64, own: u64) -> u32 {
    u64::count_ones(reason.without(own))
}

// Whether y decides a gate with a smaller reason than x has.
fn better(d: u8, x: Known, y: Known, own: u64) -> bool
    ensures { result ≡ true → y.value ≡ d }
{
    y.value == d && cost(y.reason, own) < cost(x.reason, own)
}

// A gate that the value d decides, AND by 1, OR by 2: by its right side, where that is the cheaper reason.
fn joined(d: u8, x: Known, y: Known, own: u64) -> Known
    ensures { Joined d x.value x.reason y.value y.reason result.value result.reason }
{
    if better(d, x, y, own) {
        return y;
    }
    forward::joined(d, x, y)
}

// What is known of node k, from what is known of the nodes that it names.
fn explain_node(net: &[u64], k: usize, cube: Cube64, own: u64, cells: &[u64]) -> Known
    requires { Ground net.now × HasNode net.now k × Shows net.now cube.mask cube.values cells.now k }
    ensures { Right net.now cube.mask cube.values k result.value result.reason }
{
    let node = node_at(net, k);
    match node.op {
        Op::False | Op::True | Op::Input => forward::leaf(node.op, node.left, cube),
        Op::Not => forward::negated(known_at(cells, node.left)),
        Op::And | Op::Or => joined(
            gate_decided(node.op),
            known_at(cells, node.left),
            known_at(cells, node.right),
            own,
        ),
        Op::Exists | Op::Forall => forward::bound(
            decided(node.op),
            node.mask,
            known_at(cells, node.left),
        ),
    }
}

// Node k gets its cell.
fn explain_at(net: &[u64], k: usize, cube: Cube64, own: u64, cells: &mut [u64])
    requires { Ground net.now × HasNode net.now k × Shows net.now cube.mask cube.values cells.old k }
    ensures { Shows net.now cube.mask cube.values cells.new (k + 1) × (length cells.new ≡ length cells.old) }
{
    let known = explain_node(net, k, cube, own, &cells[..]);
    cells::put(cells, k, known, 0);
}

// The value of node a and its reason. What the scratch holds before is of no account.
fn explain(net: &[u64], a: usize, cube: Cube64, own: u64, cells: &mut [u64]) -> Known
    requires { Ground net.now × HasNode net.now a × (length net.now ≤ 67 + length cells.old) }
    ensures { Right net.now cube.mask cube.values a result.value result.reason × (length cells.new ≡ length cells.old) }
{
    for k in 0..a + 1 {
        explain_at(net, k, cube, own, cells);
    }
    known_at(&cells[..], a)
}

// Whether a pass cannot make the reason smaller: it has no variable outside `own`, or node a is a quantifier, whose value hangs on a search.
fn least(net: &[u64], a: usize, reason: u64, own: u64) -> bool
    requires { HasNode net.now a }
{
    cost(reason, own) == 0 || node_at(net, a).op.is_quantifier()
}

// A reason for which node a has the value under the word, of no more variables outside `own` than the given one.
pub fn implicant(
    net: &[u64],
    a: usize,
    value: u8,
    word: u64,
    reason: u64,
    own: u64,
    scratch: &mut [u64],
) -> u64
    requires { Ground net.now × HasNode net.now a × (length net.now ≤ 67 + length scratch.old) × (0 < value) }
    ensures { (Explains (formula_at net.now a) (val value) (bit reason) (bit word) → Explains (formula_at net.now a) (val value) (bit result) (bit word)) × (length scratch.new ≡ length scratch.old) }
{
    if least(net, a, reason, own) {
        return reason;
    }
    let full = Cube64 {
        mask: forward::ALL,
        values: word,
    };
    let known = explain(net, a, full, own, scratch);
    if known.value == value && cost(known.reason, own) < cost(reason, own) {
        return known.reason;
    }
    reason
}
