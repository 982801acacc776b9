// Phases: which value of a bound variable a search tries first. A quantifier's body is met sooner by one value than by the other if the variable stands in it more
// often as it is than under a NOT, or the other way round. They stand in bits that `node_at` does not read. Nothing is proved of them but that they leave
// the net as it is: whoever searches tries the other value too.
ghost use Rattle.std.specs.Prelude.{◌≡◌, true, false, ◌+◌, ◌*◌, ◌<◌, ◌≤◌, length};
ghost use Rattle.words.specs.Word.{bit};
ghost use Rattle.net.specs.Layout.{frames_of, free_of, HasNode, Ground, Is};
ghost use Rattle.net.specs.Link.{Linked};

use form::Form;
use net::links::READERS;
use net::node::{Node, Op, frames, free, node_at};
use words::Word;

// A weight: how often something is used as it is, in the low 16 bits, and under a NOT, in the 16 above them. More than MOST counts as that.
const HALF: u64 = 65536;

const MOST: u64 = 60000;

// The bit of a variable's word that says that 1 comes first.
const PHASE: u64 = 4096;

fn capped(x: u64) -> u64
    ensures { result < 65536 }
{
    x.min(MOST)
}

fn sum(a: u64, b: u64) -> u64 {
    capped(a % HALF + b % HALF) + HALF * capped(a / HALF % HALF + b / HALF % HALF)
}

// The weight under one NOT more.
fn turned(a: u64) -> u64 {
    HALF * (a % HALF) + a / HALF % HALF
}

// Whether something is used under a NOT more often than as it is.
fn negative(weight: u64) -> bool {
    weight / HALF % HALF > weight % HALF
}

fn add(weights: &mut [u64], k: usize, weight: u64)
    requires { k < length weights.old }
{
    weights[k] = sum(weights[k], weight);
}

// A use of node k is one of what it names, or of the variable that it reads.
fn pass(net: &[u64], k: usize, weights: &mut [u64], uses: &mut [u64; 64])
    requires { Ground net.now × HasNode net.now k × (length net.now ≤ 67 + 2 * length weights.old) }
{
    let weight = weights[k];
    let node = node_at(net, k);
    match node.op {
        Op::False | Op::True => {}
        Op::Input => uses[node.left] = sum(uses[node.left], weight),
        Op::Not => add(weights, node.left, turned(weight)),
        Op::And | Op::Or => {
            add(weights, node.left, weight);
            add(weights, node.right, weight);
        }
        Op::Exists | Op::Forall => add(weights, node.left, weight),
    }
}

// How often each node and each variable is used by the last frame.
fn weigh(net: &[u64], n: usize, weights: &mut [u64], uses: &mut [u64; 64])
    requires { Ground net.now × (0 < n) × (n ≤ frames_of net.now) × (length net.now ≤ 67 + 2 * length weights.old) }
{
    weights[n - 1] = 1;
    for k in (0..n).rev() {
        pass(net, k, weights, uses);
    }
}

// Variable x has 1 first.
fn mark(net: &mut [u64], x: u8)
    requires { (x < 64) × Ground net.old }
    ensures { Linked net.old net.new }
{
    let at = READERS + usize::from(x);
    net[at] = net[at] % PHASE + PHASE;
}

// Variable x of a quantifier: 1 comes first if by most of its uses, which `weight` counts, it helps the last frame to be true, or false where the truth of that is unwanted.
fn choose(net: &mut [u64], x: u8, weight: u64, unwanted: bool)
    requires { (x < 64) × Ground net.old }
    ensures { Linked net.old net.new }
{
    if weight % HALF == weight / HALF % HALF {
        return;
    }
    if negative(weight) == unwanted {
        mark(net, x);
    }
}

// The variables of a quantifier, the highest first, until none is left. An EXISTS wants its body true, a FORALL false; `weight` is the quantifier's own.
fn choose_bound(net: &mut [u64], node: Node, weight: u64, uses: &[u64; 64])
    requires { Ground net.old }
    ensures { Linked net.old net.new }
{
    let unwanted = negative(weight) == (node.op == Op::Exists);
    let mut left = node.mask;
    while left != 0 {
        let x = left.highest();
        choose(net, x, uses[usize::from(x)], unwanted);
        left = left.without(u64::one(x));
    }
}

// The variables of node k, if it is a quantifier.
fn choose_at(net: &mut [u64], k: usize, weight: u64, uses: &[u64; 64])
    requires { Ground net.old × HasNode net.old k }
    ensures { Linked net.old net.new }
{
    let node = node_at(&net[..], k);
    if node.op.is_quantifier() {
        choose_bound(net, node, weight, uses);
    }
}

// The variables of every quantifier, with a weight for each of N nodes.
fn choose_in<const N: usize>(net: &mut [u64], n: usize)
    requires { Ground net.old × (0 < n) × (n ≤ frames_of net.old) × (length net.old ≤ 67 + 2 * N) × (N ≤ 4000) }
    ensures { Linked net.old net.new }
{
    let mut weights = [0u64; N];
    let mut uses = [0u64; 64];
    weigh(&net[..], n, &mut weights, &mut uses);
    for k in 0..n {
        choose_at(net, k, weights[k], &uses);
    }
}

// Whether one of the first n nodes is a quantifier.
fn any_bound(net: &[u64], n: usize) -> bool
    requires { Ground net.now × (n ≤ frames_of net.now) }
{
    (0..n).any(|k| node_at(net, k).op.is_quantifier())
}

// The phase of every bound variable.
pub fn choose_phases(net: &mut [u64])
    requires { Ground net.old }
    ensures { Linked net.old net.new }
{
    let n = frames(&net[..]);
    if n == 0 || !any_bound(&net[..], n) {
        return;
    }
    match net::form(&net[..]) {
        Form::Narrow => choose_in::<203>(net, n),
        Form::Wide => choose_in::<4000>(net, n),
    }
}

// Whether 1 is tried first. A free variable has 0 first, so that the first word found is the smallest.
pub fn one_first(net: &[u64], x: u8) -> bool
    requires { (x < 64) × (67 < length net.now) }
    ensures { result ≡ true → bit (free_of net.now) x ≡ false }
{
    if free(net).has(x) {
        return false;
    }
    (net[READERS + usize::from(x)] / PHASE) % 2 == 1
}
