// Sets of nodes: bit k of the words is node k. Which nodes are to be judged again is such a set; it decides how much is judged, and nothing else.
ghost use Rattle.std.specs.Prelude.{◌+◌, ◌*◌, ◌<◌, ◌≤◌, length};
ghost use Rattle.net.specs.Layout.{HasNode, Ground};

use net::links;
use words::Word;

// Marks node k, if it is not past a.
fn mark(marks: &mut [u64], k: usize, a: usize)
    requires { a < 64 * length marks.old }
{
    if k <= a {
        let bit = 1u64 << (k % 64);
        marks[k / 64] = marks[k / 64] | bit;
    }
}

// How many nodes a net has room for.
fn nodes(net: &[u64]) -> usize
    requires { Ground net.now }
    ensures { 67 + 2 * result ≤ length net.now }
{
    (net.len() - net::node::NODES) / 2
}

// The link that follows one, as long as links fall; else none.
fn falling(next: usize, link: usize) -> usize
    requires { 0 < link }
    ensures { result < link }
{
    if next < link {
        return next;
    }
    0
}

// The nodes up to a that name node i.
pub fn mark_users(net: &[u64], i: usize, a: usize, marks: &mut [u64])
    requires { Ground net.now × HasNode net.now i × (a < 64 * length marks.old) }
{
    let end = nodes(net);
    let mut link = links::user_of(net, i);
    while link != 0 {
        let k = link - 1;
        if k >= end {
            return;
        }
        mark(marks, k, a);
        link = falling(links::next_user(net, k, i), link);
    }
}

// The nodes up to a that read the variable.
fn mark_variable(net: &[u64], variable: u8, a: usize, marks: &mut [u64])
    requires { (variable < 64) × Ground net.now × (a < 64 * length marks.old) }
{
    let end = nodes(net);
    let mut link = links::reader_of(net, variable);
    while link != 0 {
        let k = link - 1;
        if k >= end {
            return;
        }
        mark(marks, k, a);
        link = falling(links::next_left(net, k), link);
    }
}

// The nodes up to a that read one of the variables.
pub fn mark_readers(net: &[u64], variables: u64, a: usize, marks: &mut [u64])
    requires { Ground net.now × (a < 64 * length marks.old) }
{
    let mut left = variables;
    while left != 0 {
        let x = left.highest();
        mark_variable(net, x, a, marks);
        left = left.without(u64::one(x));
    }
}

// The nodes behind the frames up to a: few, and no link leads to them.
pub fn mark_behind(net: &[u64], a: usize, marks: &mut [u64])
    requires { Ground net.now × HasNode net.now a × (a < 64 * length marks.old) }
{
    for k in net::frames(net)..=a {
        mark(marks, k, a);
    }
}

// The lowest marked node from k to a; past a, some greater number.
pub fn next(marks: &[u64], k: usize, a: usize) -> usize
    requires { (a < 4096) × (a < 64 * length marks.now) }
    ensures { k ≤ result }
{
    let mut at = k;
    while at <= a {
        let w = marks[at / 64] >> (at % 64);
        if w != 0 {
            return at + w.trailing_zeros() as usize;
        }
        at = (at / 64 + 1) * 64;
    }
    at
}
