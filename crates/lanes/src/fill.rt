// Each node's row: its word of lanes with the reasons, from the rows of the nodes that it names.
ghost use Rattle.std.specs.Prelude.{◌≡◌, ◌⊎◌, ◌*◌, ◌<◌, length};
ghost use Rattle.std.specs.Int.Bits.{bit_and, bit_or};
ghost use Rattle.net.specs.Layout.{formula_at, HasNode, Ground};
ghost use Rattle.judge.specs.Judge.{Judged};
ghost use Rattle.lanes.specs.Lanes.{Flipped};
ghost use Rattle.lanes.specs.Marks.{Founded, Closed};
ghost use Rattle.lanes.specs.Fill as Fill;
ghost use Rattle.lanes.specs.Fill.{HasRow, RowWords, stored, RowAt, Ripe, Added, Constant, InputRow, Chosen, Rested};

use crate::half::{low, place_of};
use crate::marks::marked;
use cube::Cube64;
use judge::forward::variable;
use judge::known_at;
use net::{Op, node_at};
use words::Word;

// Every lane.
pub const ONES: u64 = u64::MAX;

// A node's word: its truth in each lane. Where it is false it is so for every setting with the cube's values at the variables of `zero`; where it is true,
// with those of `one`.
#[derive(Clone, Copy)]
pub struct Row {
    pub zero: u64,
    pub one: u64,
    pub word: u64,
}

pub fn row_at(rows: &[u64], k: usize) -> Row
    requires { HasRow rows.now k }
    ensures { RowWords rows.now k result.zero result.one result.word }
{
    let at = 3 * k;
    Row {
        zero: rows[at + 1],
        one: rows[at + 2],
        word: rows[at],
    }
}

#[tactic(auto, unfolding(crate::specs::Fill::stored))]
fn keep(rows: &mut [u64], k: usize, row: Row)
    requires { HasRow rows.old k }
    ensures { rows.new ≡ stored rows.old k row.zero row.one row.word }
{
    let at = 3 * k;
    rows[at] = row.word;
    rows[at + 1] = row.zero;
    rows[at + 2] = row.one;
}

// The same in every lane, because of r.
fn constant(b: bool, r: u64) -> Row
    ensures { Constant b r result.zero result.one result.word }
{
    if b {
        return Row {
            zero: 0,
            one: r,
            word: ONES,
        };
    }
    Row {
        zero: r,
        one: 0,
        word: 0,
    }
}

pub fn flip(t: u64) -> u64
    ensures { Flipped t result }
{
    !t
}

// A variable that is no lane is as in the word w.
fn input(v: u8, w: u64, places: &[u8; 64]) -> Row
    requires { v < 64 }
    ensures { InputRow places.now w v result.zero result.one result.word }
{
    let p = place_of(places, v);
    if p < 6 {
        let t = flip(low(p));
        return Row {
            zero: 0,
            one: 0,
            word: t,
        };
    }
    let only = u64::one(v);
    constant(w.has(v), only)
}

// The same word, and its reasons the other way round.
fn swapped(x: Row) -> Row
    ensures { (result.zero ≡ x.one) × (result.one ≡ x.zero) × (result.word ≡ x.word) }
{
    Row {
        zero: x.one,
        one: x.zero,
        word: x.word,
    }
}

fn negated(x: Row) -> Row
    ensures { (result.zero ≡ x.one) × (result.one ≡ x.zero) × Flipped x.word result.word }
{
    let word = flip(x.word);
    Row { word, ..swapped(x) }
}

// The reason of fewer variables.
fn fewer(r: u64, q: u64) -> u64
    ensures { (result ≡ r) ⊎ (result ≡ q) }
{
    if u64::count_ones(q) < u64::count_ones(r) {
        return q;
    }
    r
}

// Why the decided lanes of a gate with the word t are so: one side that decides them all will do.
fn chosen(t: u64, x: u64, r: u64, y: u64, q: u64) -> u64
    ensures { Chosen t x r y q result }
{
    if t == x {
        if t == y {
            return fewer(r, q);
        }
        return r;
    }
    if t == y {
        return q;
    }
    r | q
}

// Why the others are so: both sides, or nothing where there are none.
fn rested(t: u64, none: u64, r: u64, q: u64) -> u64
    ensures { Rested t none r q result }
{
    if t == none {
        return 0;
    }
    r | q
}

// A gate with this word that 0 decides; in no lane one of its sides is 1, where the word is `none`.
fn gate(word: u64, none: u64, x: Row, y: Row) -> Row
    ensures { (result.word ≡ word) × Chosen word x.word x.zero y.word y.zero result.zero × Rested word none x.one y.one result.one }
{
    let zero = chosen(word, x.word, x.zero, y.word, y.zero);
    let one = rested(word, none, x.one, y.one);
    Row { zero, one, word }
}

fn both(x: Row, y: Row) -> Row
    ensures { (result.word ≡ bit_and x.word y.word) × Chosen result.word x.word x.zero y.word y.zero result.zero × Rested result.word 0 x.one y.one result.one }
{
    gate(x.word & y.word, 0, x, y)
}

// 1 decides it: the same, with the reasons the other way round.
fn either(x: Row, y: Row) -> Row
    ensures { (result.word ≡ bit_or x.word y.word) × Chosen result.word x.word x.one y.word y.one result.one × Rested result.word 18446744073709551615 x.zero y.zero result.zero }
{
    swapped(gate(x.word | y.word, ONES, swapped(x), swapped(y)))
}

// The row of node k, which is no quantifier, from those of the nodes that it names.
fn row_of(net: &[u64], k: usize, w: u64, places: &[u8; 64], rows: &[u64]) -> Row
    requires { Ground net.now × HasNode net.now k × HasRow rows.now k × Founded (RowAt net.now places.now w rows.now) net.now k }
    ensures { Fill.Row (formula_at net.now k) places.now w result.zero result.one result.word }
{
    let node = node_at(net, k);
    match node.op {
        Op::False => constant(false, 0),
        Op::True => constant(true, 0),
        Op::Input => input(variable(node.left), w, places),
        Op::Not => negated(row_at(rows, node.left)),
        Op::And => both(row_at(rows, node.left), row_at(rows, node.right)),
        Op::Or => either(row_at(rows, node.left), row_at(rows, node.right)),
        Op::Exists | Op::Forall => unreachable!(),
    }
}

// Node k's row is stored: the same in every lane where its value is known.
fn next(net: &[u64], k: usize, cube: Cube64, places: &[u8; 64], cells: &[u64], rows: &mut [u64])
    requires { Ground net.now × HasNode net.now k × HasRow rows.old k × Judged net.now cube.mask cube.values cells.now × Ripe net.now cells.now places.now cube.values rows.old k }
    ensures { Added net.now places.now cube.values k rows.old rows.new }
{
    let known = known_at(cells, k);
    if known.value != 0 {
        let row = constant(known.value == 2, known.reason);
        keep(rows, k, row);
        return;
    }
    let row = row_of(net, k, cube.values, places, &rows[..]);
    keep(rows, k, row);
}

// The rows of the marked nodes up to a, node a's among them.
pub fn fill(
    net: &[u64],
    a: usize,
    cube: Cube64,
    places: &[u8; 64],
    cells: &[u64],
    marks: &[u64],
    rows: &mut [u64],
)
    requires { Ground net.now × HasNode net.now a × HasRow rows.old a × (a < 64 * length marks.now) × Judged net.now cube.mask cube.values cells.now × Closed net.now cells.now marks.now 0 a }
    ensures { RowAt net.now places.now cube.values rows.new a × (length rows.new ≡ length rows.old) }
{
    for k in 0..a + 1 {
        if marked(marks, k) {
            next(net, k, cube, places, cells, rows);
        }
    }
}
