// Backward implication: from the truth that node a must have to the variables that it forces. What the scratch `wants` holds before a call is of no
// account: it is wiped first.
#![tactic(auto)]

ghost use Rattle.std.specs.Prelude.{◌≡◌, List, ℕ, ◌+◌, ◌-◌, ◌<◌, ◌≤◌, ◌^◌, length};
ghost use Rattle.net.specs.Layout.{HasNode, Ground, Is};
ghost use Rattle.net.specs.Op.{code_of};
ghost use Rattle.judge.specs.Cells.{HasCell};
ghost use Rattle.judge.specs.Judge.{Judged};
ghost use Rattle.imply.specs.Posed.{Posed};
ghost use Rattle.imply.specs.Required.{Required, Wanted, Passed, Forcing, Valued, Wiped};
ghost use Rattle.imply.specs.Gather.{Gathered};

use cube::Cube64;
use judge::{Known, cells, forward, known_at};
use net::node::{decided, gate_decided};
use net::{Node, Op, node_at};
use words::Word;

// Nothing is wanted of the nodes up to a.
fn wipe(wants: &mut [u64], a: usize)
    requires { HasCell wants.old a }
    ensures { Wiped a wants.old wants.new }
{
    wants[..2 * a + 2].fill(0);
}

// Node k is to have the value, unless something is known or wanted of it already.
fn offer(cells: &[u64], wants: &mut [u64], k: usize, want: Known)
    requires { HasCell cells.now k × HasCell wants.old k × (k < 65535) × (want.value < 3) }
    ensures { (length wants.new ≡ length wants.old) × ((net : List ℕ) (a t m w : ℕ) → Wanted net a t m w wants.old → Required net a t m w k want.value want.reason → Wanted net a t m w wants.new) }
{
    if known_at(cells, k).value != 0 || known_at(&wants[..], k).value != 0 {
        return;
    }
    cells::put(wants, k, want, 0);
}

// What a gate wants of its sides: its undecided truth of both, its decided truth of one if the other has not got it.
fn pass_gate(
    net: &[u64],
    k: usize,
    node: Node,
    want: Known,
    cube: Cube64,
    cells: &[u64],
    wants: &mut [u64],
)
    requires is { Is net.now k (code_of node.op) node.left node.right node.mask × (4 ≤ code_of node.op) × (code_of node.op < 6) × (0 < want.value) × (want.value < 3) }
    requires grounded { Ground net.now × HasNode net.now k × Judged net.now cube.mask cube.values cells.now × (length net.now ≤ 67 + length wants.old) }
    ensures { Passed net.now cube.mask cube.values k want.value want.reason wants.old wants.new }
{
    let d = gate_decided(node.op);
    if want.value != d {
        offer(cells, wants, node.left, want);
        offer(cells, wants, node.right, want);
        return;
    }
    let x = known_at(cells, node.left);
    if x.value != 0 {
        if x.value != d {
            let reason = want.reason | x.reason;
            offer(cells, wants, node.right, Known { reason, ..want });
        }
        return;
    }
    let y = known_at(cells, node.right);
    if y.value != 0 {
        if y.value != d {
            let reason = want.reason | y.reason;
            offer(cells, wants, node.left, Known { reason, ..want });
        }
    }
}

// What a quantifier wants of its body, where it wants it for all values of the bound variables and none of them is assigned.
fn pass_quantifier(
    net: &[u64],
    k: usize,
    node: Node,
    want: Known,
    cube: Cube64,
    cells: &[u64],
    wants: &mut [u64],
)
    requires is { Is net.now k (code_of node.op) node.left node.right node.mask × (6 ≤ code_of node.op) × (0 < want.value) × (want.value < 3) }
    requires grounded { Ground net.now × HasNode net.now k × Judged net.now cube.mask cube.values cells.now × (length net.now ≤ 67 + length wants.old) }
    ensures { Passed net.now cube.mask cube.values k want.value want.reason wants.old wants.new }
{
    if want.value == decided(node.op) {
        return;
    }
    if cube.mask & node.mask == 0 {
        offer(cells, wants, node.left, want);
    }
}

// What node k wants of the nodes that it names.
fn pass(
    net: &[u64],
    k: usize,
    node: Node,
    want: Known,
    cube: Cube64,
    cells: &[u64],
    wants: &mut [u64],
)
    requires is { Is net.now k (code_of node.op) node.left node.right node.mask × (0 < want.value) × (want.value < 3) }
    requires grounded { Ground net.now × HasNode net.now k × Judged net.now cube.mask cube.values cells.now × (length net.now ≤ 67 + length wants.old) }
    ensures { Passed net.now cube.mask cube.values k want.value want.reason wants.old wants.new }
{
    match node.op {
        Op::False | Op::True | Op::Input => {}
        Op::Not => offer(
            cells,
            wants,
            node.left,
            Known {
                value: 3 - want.value,
                ..want
            },
        ),
        Op::And | Op::Or => pass_gate(net, k, node, want, cube, cells, wants),
        Op::Exists | Op::Forall => pass_quantifier(net, k, node, want, cube, cells, wants),
    }
}

fn with(values: u64, p: u64, value: u8) -> u64
    ensures { (x : ℕ) → p ≡ 2 ^ x → Valued values x value result }
{
    if value == 2 { values | p } else { values }
}

// A loose variable that node k reads has the value that is wanted of the node.
fn take(
    net: &[u64],
    k: usize,
    node: Node,
    want: Known,
    loose: u64,
    whys: &mut [u64; 64],
    f: Cube64,
) -> Cube64
    requires { Is net.now k (code_of node.op) node.left node.right node.mask × Ground net.now }
    ensures { (a t m w : ℕ) → Required net.now a t m w k want.value want.reason → Forcing net.now a t loose m w f.mask f.values whys.old → Forcing net.now a t loose m w result.mask result.values whys.new }
{
    let Op::Input = node.op else {
        return f;
    };
    let left = node.left;
    let x = forward::variable(left);
    if !loose.has(x) || f.mask.has(x) {
        return f;
    }
    let p = u64::one(x);
    let values = with(f.values, p, want.value);
    whys[left] = want.reason;
    Cube64 {
        mask: f.mask | p,
        values,
    }
}

// One node of the pass.
fn force_at(
    net: &[u64],
    k: usize,
    loose: u64,
    cube: Cube64,
    cells: &[u64],
    wants: &mut [u64],
    whys: &mut [u64; 64],
    f: Cube64,
) -> Cube64
    requires { Ground net.now × HasNode net.now k × Judged net.now cube.mask cube.values cells.now × (length net.now ≤ 67 + length wants.old) }
    ensures { (length wants.new ≡ length wants.old) × ((a t : ℕ) → k ≤ a → Wanted net.now a t cube.mask cube.values wants.old → Forcing net.now a t loose cube.mask cube.values f.mask f.values whys.old → Wanted net.now a t cube.mask cube.values wants.new × Forcing net.now a t loose cube.mask cube.values result.mask result.values whys.new) }
{
    let want = known_at(&wants[..], k);
    if want.value == 0 || want.value > 2 {
        return f;
    }
    let node = node_at(net, k);
    pass(net, k, node, want, cube, cells, wants);
    take(net, k, node, want, loose, whys, f)
}

// The loose variables that must have a value for node a to have the target's truth, with these values; `whys` has the reason of each.
pub fn force(
    net: &[u64],
    a: usize,
    target: u8,
    loose: u64,
    cube: Cube64,
    cells: &[u64],
    wants: &mut [u64],
    whys: &mut [u64; 64],
) -> Cube64
    requires { Posed net.now a target loose cube.mask cube.values cells.now × (length whys.old ≡ 64) × (length net.now ≤ 67 + length wants.old) }
    ensures { Forcing net.now a target loose cube.mask cube.values result.mask result.values whys.new × (length wants.new ≡ length wants.old) }
{
    wipe(wants, a);
    let want = Known {
        value: target,
        reason: 0,
    };
    offer(cells, wants, a, want);
    let mut f = Cube64::UNFIXED;
    for k in (0..a + 1).rev() {
        f = force_at(net, k, loose, cube, cells, wants, whys, f);
    }
    f
}

// The reasons of some forced variables, together.
pub fn gather(whys: &[u64; 64], some: u64) -> u64
    ensures { Gathered whys.now some result }
{
    let mut left = some;
    let mut r: u64 = 0;
    while left != 0 {
        let x = left.highest();
        r |= whys[usize::from(x)];
        left = left.without(u64::one(x));
    }
    r
}
