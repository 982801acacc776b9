// The region of an absorb: what is below the quantifier but not below g, and what is above. Marks are made from node 0 up.
ghost use Rattle.std.specs.Prelude.{◌≡◌, ℕ, ◌-◌, ◌<◌, ◌≤◌, Bool, true, false, eqb, length};
ghost use Rattle.words.specs.Word.{bit};
ghost use Rattle.net.specs.Net.{frees};
ghost use Rattle.net.specs.Layout.{frames_of, packed, Ground};
ghost use Rattle.absorb.specs.Absorb.{Names, Spares, Inside, Outside};
ghost use Rattle.absorb.specs.Cone.{NearNode, node_as};
ghost use Rattle.absorb.specs.Marks.{unmarked, Clean};

use net::{Node, Op, frames, node_at};
use words::Word;

// Whether a node names a marked one.
#[tactic(auto, unfolding(net::specs::Net::node_of, crate::specs::Marks::unmarked))]
fn names_marked(node: Node, marks: &[bool]) -> bool
    requires { NearNode (length marks.now) node }
    ensures { result ≡ false → Names (unmarked marks.now) (node_as node) }
{
    match node.op {
        Op::False | Op::True | Op::Input => false,
        Op::Not | Op::Exists | Op::Forall => marks[node.left],
        Op::And | Op::Or => marks[node.left] || marks[node.right],
    }
}

// Whether a node neither reads y nor binds it or a variable of f.
#[tactic(auto, unfolding(net::specs::Net::node_of))]
fn spares(node: Node, y: u8, f: u64) -> bool
    requires { y < 64 }
    ensures { result ≡ true → (F : ℕ → Bool) → ((x : ℕ) → bit f x ≡ F x) → Spares y F (node_as node) }
{
    match node.op {
        Op::Input => node.left != usize::from(y),
        Op::Exists | Op::Forall => !node.mask.has(y) && f & node.mask == 0,
        Op::False | Op::True | Op::Not | Op::And | Op::Or => true,
    }
}

// Whether node k, or one below it but not below g, does not spare y.
fn spoils(net: &[u64], k: usize, g: usize, y: u8, f: u64, marks: &[bool]) -> bool
    requires grounded { Ground net.now × (k < frames_of net.now) × (y < 64) × (k ≤ length marks.now) }
    requires by_index { (x : ℕ) → bit f x ≡ frees (packed net.now) g x }
    ensures { result ≡ false → Clean (λ j. Spares y (frees (packed net.now) g) (packed net.now j)) (packed net.now) g marks.now k }
{
    if k == g {
        return false;
    }
    let node = node_at(net, k);
    if !spares(node, y, f) {
        return true;
    }
    names_marked(node, marks)
}

// Whether y is read below `body` through g only, and nothing on the way binds what g reads.
pub fn inside(net: &[u64], body: usize, g: usize, y: u8, f: u64, marks: &mut [bool]) -> bool
    requires grounded { Ground net.now × (body < frames_of net.now) × (y < 64) × (body < length marks.old) }
    requires by_index { (x : ℕ) → bit f x ≡ frees (packed net.now) g x }
    ensures { result ≡ true → Inside (packed net.now) body g y }
{
    for k in 0..body + 1 {
        let spoilt = spoils(net, k, g, y, f, &marks[..]);
        marks[k] = spoilt;
    }
    !marks[body]
}

// Whether node k is g, or reaches it, but not through q.
fn sees(net: &[u64], k: usize, q: usize, g: usize, marks: &[bool]) -> bool
    requires { Ground net.now × (k < frames_of net.now) × (k ≤ length marks.now) }
    ensures { result ≡ false → Clean (λ j. eqb j g ≡ false) (packed net.now) q marks.now k }
{
    if k == g {
        return true;
    }
    if k == q {
        return false;
    }
    names_marked(node_at(net, k), marks)
}

// Whether the root reaches g through q only.
pub fn outside(net: &[u64], q: usize, g: usize, marks: &mut [bool]) -> bool
    requires { Ground net.now × (g < q) × (0 < frames_of net.now) × (frames_of net.now ≤ length marks.old) }
    ensures { result ≡ true → Outside (packed net.now) (frames_of net.now - 1) q g }
{
    let n = frames(net);
    for k in 0..n {
        let seen = sees(net, k, q, g, &marks[..]);
        marks[k] = seen;
    }
    !marks[n - 1]
}
