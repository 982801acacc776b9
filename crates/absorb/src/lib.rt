// The second rewrite: a node that flips with a bound variable y, where y is read through it only, becomes y.
#![tactic(auto)]

mod cone;
mod exclusive;
mod propose;
mod region;
mod spread;

ghost use Rattle.std.specs.Prelude.{◌≡◌, ◌<◌, ◌≤◌, true};
ghost use Rattle.sheet.specs.Fields.{Sheet};
ghost use Rattle.net.specs.Layout.{frames_of};
ghost use Rattle.net.specs.Sheet.{NetOf};
ghost use Rattle.absorb.specs.Sheet.{Absorbable};

use form::Form;
use net::{frames, node_at};
use propose::MOST_SIDES;
use words::Word;

// How many steps cones that lead to nothing may take in a sweep, beside one for each node, and how many sweeps there are at most.
const STEPS: usize = 4096;

const SWEEPS: usize = 16;

// What is found out of the nodes of a net, of which there are at most N.
#[derive(Drop)]
struct Tables<const N: usize> {
    // Where in a cone each node stands, and the side nodes.
    slots: [u8; N],
    sides: [usize; MOST_SIDES],
    // The free variables of each node, and scratch: the variables bound below it, or its lanes.
    frees: [u64; N],
    words: [u64; N],
    // Which nodes belong to a region.
    marks: [bool; N],
}

// Whether node g may become INPUT y, by the quantifier q and the cone that the tables say: whoever proposes them need prove nothing.
fn may_absorb<const N: usize>(
    net: &[u64],
    q: usize,
    g: usize,
    y: u8,
    tables: &mut Tables<N>,
) -> bool
    requires { ((s : Sheet) × NetOf s net.now) × (frames_of net.now ≤ N) }
    ensures { result ≡ true → Absorbable net.now g y }
{
    if q >= frames(net) || g >= q || y >= form::variables(net::form(net)) {
        return false;
    }
    let binder = node_at(net, q);
    if !binder.op.is_quantifier() || !binder.mask.has(y) {
        return false;
    }
    cone::free_words(net, g + 1, &mut tables.frees);
    if !cone::turns(
        net,
        y,
        &tables.slots,
        &tables.sides,
        g,
        &tables.frees,
        &mut tables.words,
    ) {
        return false;
    }
    region::inside(net, binder.left, g, y, tables.frees[g], &mut tables.marks)
        && region::outside(net, q, g, &mut tables.marks)
}

// Node g becomes INPUT y, if it may; tells whether it did.
fn try_absorb<const N: usize>(
    net: &mut [u64],
    q: usize,
    g: usize,
    y: u8,
    tables: &mut Tables<N>,
) -> bool
    requires { ((s : Sheet) × NetOf s net.old) × (frames_of net.old ≤ N) }
    ensures { (s : Sheet) → NetOf s net.old → NetOf s net.new }
{
    let may = may_absorb(&net[..], q, g, y, tables);
    if may {
        spread::store(net, g, y);
    }
    may
}

// ---- what is tried

// Node g with the variable y; tells whether it was absorbed. Where a cone was tested in vain, the tests looked at every node up to it, and that many steps are spent.
fn try_variable<const N: usize>(
    net: &mut [u64],
    g: usize,
    y: u8,
    steps: &mut usize,
    tables: &mut Tables<N>,
) -> bool
    requires { ((s : Sheet) × NetOf s net.old) × (frames_of net.old ≤ N) × (g < frames_of net.old) × (y < 64) }
    ensures { (s : Sheet) → NetOf s net.old → NetOf s net.new }
{
    let before = *steps;
    let sides = propose::grow(
        &net[..],
        g,
        y,
        steps,
        &tables.frees,
        &mut tables.slots,
        &mut tables.sides,
    );
    if sides.unwrap_or(0) == 0 {
        return false;
    }
    if let Some(q) = propose::binder(&net[..], g, y) {
        if try_absorb(net, q, g, y, tables) {
            *steps = before;
            return true;
        }
    }
    *steps = steps.saturating_sub(g);
    false
}

// Node g with each variable of the word, until one is absorbed; tells whether one was. The loop takes the highest variable out of the word, and counts nothing.
fn try_word<const N: usize>(
    net: &mut [u64],
    g: usize,
    word: u64,
    steps: &mut usize,
    tables: &mut Tables<N>,
) -> bool
    requires { ((s : Sheet) × NetOf s net.old) × (frames_of net.old ≤ N) × (g < frames_of net.old) }
    ensures { (s : Sheet) → NetOf s net.old → NetOf s net.new }
{
    let mut rest = word;
    while rest > 0 {
        let y = rest.highest();
        rest = rest.without(u64::one(y));
        if try_variable(net, g, y, steps, tables) {
            return true;
        }
    }
    false
}

// Node g, if it is a gate that compares one of the rare variables; tells whether one was absorbed. The table of free variables goes along.
fn try_node<const N: usize>(
    net: &mut [u64],
    g: usize,
    rare: u64,
    steps: &mut usize,
    tables: &mut Tables<N>,
) -> bool
    requires { ((s : Sheet) × NetOf s net.old) × (frames_of net.old ≤ N) × (g < frames_of net.old) }
    ensures { (s : Sheet) → NetOf s net.old → NetOf s net.new }
{
    propose::refresh(&net[..], g, &mut tables.frees);
    if *steps == 0 {
        return false;
    }
    let word = exclusive::operands(&net[..], node_at(&net[..], g)) & rare;
    let done = try_word(net, g, word, steps, tables);
    if done {
        propose::refresh(&net[..], g, &mut tables.frees);
    }
    done
}

// Every node, from the first on, with the variables of the word that are rare; tells whether one was absorbed.
fn sweep<const N: usize>(net: &mut [u64], word: u64, tables: &mut Tables<N>) -> bool
    requires { ((s : Sheet) × NetOf s net.old) × (frames_of net.old ≤ N) }
    ensures { (s : Sheet) → NetOf s net.old → NetOf s net.new }
{
    let n = frames(&net[..]);
    let rare = exclusive::rare(&net[..]) & word;
    let mut steps = STEPS + n;
    let mut done = false;
    for k in 0..n {
        if try_node(net, k, rare, &mut steps, tables) {
            done = true;
        }
    }
    done
}

// Sweeps until one finds nothing: what is absorbed can free another variable. None where it would not pay.
fn absorb_in<const N: usize>(net: &mut [u64])
    requires { ((s : Sheet) × NetOf s net.old) × (frames_of net.old ≤ N) × (N ≤ 3000) }
    ensures { (s : Sheet) → NetOf s net.old → NetOf s net.new }
{
    let mut tables = Tables::<N> {
        slots: [0; N],
        sides: [0; MOST_SIDES],
        frees: [0; N],
        words: [0; N],
        marks: [false; N],
    };
    let word = exclusive::deep(&net[..], &mut tables.words);
    if !exclusive::promising(&net[..], word) {
        return;
    }
    'sweeps: for _ in 0..SWEEPS {
        if !sweep(net, word, &mut tables) {
            return;
        }
    }
}

// Whatever can be absorbed is. The net still is that of its sheet, whichever that is.
pub fn absorb(net: &mut [u64])
    requires { (s : Sheet) × NetOf s net.old }
    ensures { (s : Sheet) → NetOf s net.old → NetOf s net.new }
{
    match net::form(&net[..]) {
        Form::Narrow => absorb_in::<200>(net),
        Form::Wide => absorb_in::<3000>(net),
    }
}
