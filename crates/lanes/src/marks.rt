// The nodes whose rows a search needs: bit k of the words is node k. They are found from the searched node downwards.
ghost use Rattle.std.specs.Prelude.{◌≡◌, ◌+◌, ◌*◌, ◌<◌, ◌≤◌, length, IfSome, OnSome};
ghost use Rattle.net.specs.Layout.{HasNode, Ground};
ghost use Rattle.lanes.specs.Marks as Marks;
ghost use Rattle.lanes.specs.Marks.{joined, Raised, Spread, Closed};

use judge::forward::variable;
use judge::known_at;
use net::{Op, node_at};
use words::Word;

fn mark(marks: &mut [u64], k: usize)
    requires { k < 64 * length marks.old }
    ensures { marks.new ≡ joined marks.old k }
{
    let bit = 1u64 << (k % 64);
    marks[k / 64] |= bit;
}

pub fn marked(marks: &[u64], k: usize) -> bool
    requires { k < 64 * length marks.now }
    ensures { result ≡ Marks.marked marks.now k }
{
    (marks[k / 64] >> (k % 64)) % 2 == 1
}

// The nodes that node k names are marked, unless its truth is known. The answer is the variable that it reads, as a mask; none, where it is a quantifier
// of which nothing is known.
fn spread(net: &[u64], k: usize, cells: &[u64], marks: &mut [u64]) -> Option<u64>
    requires { Ground net.now × HasNode net.now k × (length net.now ≤ 67 + length cells.now) × (k < 64 * length marks.old) }
    ensures { OnSome result (Raised k marks.old marks.new × Spread net.now cells.now marks.new k) }
{
    if known_at(cells, k).value != 0 {
        return Some(0);
    }
    let node = node_at(net, k);
    match node.op {
        Op::False | Op::True => Some(0),
        Op::Input => Some(u64::one(variable(node.left))),
        Op::Not => {
            mark(marks, node.left);
            Some(0)
        }
        Op::And | Op::Or => {
            mark(marks, node.left);
            mark(marks, node.right);
            Some(0)
        }
        Op::Exists | Op::Forall => None,
    }
}

// Node a is marked, and so is what its row is made of. The answer is the variables that stand there; none, from the first quantifier of which nothing is
// known.
pub fn live(net: &[u64], a: usize, cells: &[u64], marks: &mut [u64]) -> Option<u64>
    requires { Ground net.now × HasNode net.now a × (length net.now ≤ 67 + length cells.now) × (a < 64 * length marks.old) }
    ensures { OnSome result (Closed net.now cells.now marks.new 0 a) }
{
    mark(marks, a);
    let mut variables: u64 = 0;
    for k in (0..a + 1).rev() {
        if marked(&marks[..], k) {
            let below = spread(net, k, cells, marks)?;
            variables |= below;
        }
    }
    Some(variables)
}
