// A search whose open variables are all lanes: the node's word has every candidate.
ghost use Rattle.std.specs.Prelude.{◌≡◌, ℕ, ◌*◌, ◌<◌, ◌≤◌, length, IfSome};
ghost use Rattle.words.specs.Mask.{Apart};
ghost use Rattle.formula.specs.Formula.{Formula};
ghost use Rattle.imply.specs.Posed.{Posed, Searched, Solved};
ghost use Rattle.lanes.specs.Fill as Fill;
ghost use Rattle.lanes.specs.Fill.{HasRows, Seated};
ghost use Rattle.lanes.specs.Settle.{Onward, Aimed};

use crate::fill::Row;
use crate::half::{half, place_of};
use crate::{fill, marks};
use cube::Cube64;
use words::Word;

// As many variables have a position.
const POSITIONS: u32 = 6;

// What a search found: a word with its reason, or that there is none with the reason.
#[derive(Clone, Copy)]
pub struct Settled {
    pub found: bool,
    pub word: u64,
    pub reason: u64,
}

// A search on its way: the loose variables that are still to be set, the word so far, and the lanes that are hit, with the reasons: why they are, and why
// the others are not.
#[derive(Clone, Copy)]
struct State {
    rest: u64,
    word: u64,
    reason: u64,
    other: u64,
    hits: u64,
}

// The highest loose variable is set: to 0 unless only 1 has hits. It joins the reason where its halves differ.
fn step(at: State, places: &[u8; 64]) -> State
    requires { 0 < at.rest }
    ensures { (result.rest < at.rest) × Onward places.now at.rest at.word at.reason at.other at.hits result.rest result.word result.reason result.other result.hits }
{
    let x = at.rest.highest();
    let only = u64::one(x);
    let left = at.rest.without(only);
    let p = place_of(places, x);
    if p >= 6 {
        return State { rest: left, ..at };
    }
    let lo = half(at.hits, p, false);
    let hi = half(at.hits, p, true);
    if lo == hi {
        return State {
            rest: left,
            hits: lo,
            ..at
        };
    }
    let next = State {
        rest: left,
        reason: at.reason | only,
        other: at.other | only,
        ..at
    };
    if lo == 0 {
        return State {
            word: at.word | only,
            hits: hi,
            ..next
        };
    }
    State { hits: lo, ..next }
}

// Every loose variable is set.
fn narrow(start: State, places: &[u8; 64]) -> State
    ensures { Onward places.now start.rest start.word start.reason start.other start.hits result.rest result.word result.reason result.other result.hits }
{
    let mut at = start;
    while at.rest > 0 {
        at = step(at, places);
    }
    at
}

// The search for the target from the start.
fn aim(target: u8, loose: u64, w: u64, row: Row) -> State
    requires { (0 < target) × (target < 3) }
    ensures { (result.rest ≡ loose) × (result.word ≡ w) × Aimed target row.zero row.one row.word result.reason result.other result.hits }
{
    if target == 2 {
        return State {
            rest: loose,
            word: w,
            reason: row.one,
            other: row.zero,
            hits: row.word,
        };
    }
    let h = fill::flip(row.word);
    State {
        rest: loose,
        word: w,
        reason: row.zero,
        other: row.one,
        hits: h,
    }
}

// What a row says of the search. `lanes` are the variables that have a position.
fn settle(
    target: u8,
    loose: u64,
    lanes: u64,
    w: u64,
    row: Row,
    places: &[u8; 64],
) -> Option<Settled>
    requires { (0 < target) × (target < 3) × Apart w loose × Seated places.now lanes 0 }
    ensures { (f : Formula) (free : ℕ) → Fill.Row f places.now w row.zero row.one row.word → IfSome result (λ s. Searched f free target loose w s.found s.word s.reason) }
{
    if (row.zero | row.one) & (lanes | loose) > 0 {
        return None;
    }
    let start = aim(target, loose, w, row);
    if start.hits == 0 {
        return Some(Settled {
            found: false,
            word: w,
            reason: start.other,
        });
    }
    let end = narrow(start, places);
    if end.hits == fill::ONES {
        return Some(Settled {
            found: true,
            word: end.word,
            reason: end.reason,
        });
    }
    None
}

// The variables of the mask get positions, as long as there are any.
fn seat(mask: u64, places: &mut [u8; 64])
    requires { Seated places.old mask 6 }
    ensures { Seated places.new mask 0 }
{
    let mut rest = mask;
    let mut top: u8 = 6;
    while rest > 0 {
        if top == 0 {
            return;
        }
        let x = rest.highest();
        top -= 1;
        places[usize::from(x)] = top;
        rest = rest.without(u64::one(x));
    }
}

// The same as `solve`. The marks are empty.
fn solve_marked(
    net: &[u64],
    a: usize,
    target: u8,
    loose: u64,
    cube: Cube64,
    cells: &[u64],
    rows: &mut [u64],
    marks: &mut [u64],
) -> Option<Settled>
    requires { Posed net.now a target loose cube.mask cube.values cells.now × HasRows net.now rows.old × (a < 64 * length marks.old) }
    ensures { IfSome result (λ s. Solved net.now a target loose cube.values s.found s.word s.reason) × (length rows.new ≡ length rows.old) }
{
    let lanes = marks::live(net, a, cells, marks)?;
    if lanes.count_ones() > POSITIONS {
        return None;
    }
    let mut places = [6u8; 64];
    seat(lanes, &mut places);
    fill::fill(net, a, cube, &places, cells, &marks[..], rows);
    let row = fill::row_at(&rows[..], a);
    settle(target, loose, lanes, cube.values, row, &places)
}

// The same, with a set of as many words.
fn solve_sized<const WORDS: usize>(
    net: &[u64],
    a: usize,
    target: u8,
    loose: u64,
    cube: Cube64,
    cells: &[u64],
    rows: &mut [u64],
) -> Option<Settled>
    requires { Posed net.now a target loose cube.mask cube.values cells.now × HasRows net.now rows.old × (a < 64 * WORDS) × (WORDS ≤ 64) }
    ensures { IfSome result (λ s. Solved net.now a target loose cube.values s.found s.word s.reason) × (length rows.new ≡ length rows.old) }
{
    let mut marks = [0u64; WORDS];
    solve_marked(net, a, target, loose, cube, cells, rows, &mut marks)
}

// Solves node a for the target over the loose variables, where these are few and no quantifier is open. What is known of the nodes under the cube is
// taken as it is. The rows hold nothing from one call to the next: three words for each node that the net has room for.
pub fn solve(
    net: &[u64],
    a: usize,
    target: u8,
    loose: u64,
    cube: Cube64,
    cells: &[u64],
    rows: &mut [u64],
) -> Option<Settled>
    requires { Posed net.now a target loose cube.mask cube.values cells.now × HasRows net.now rows.old }
    ensures { IfSome result (λ s. Solved net.now a target loose cube.values s.found s.word s.reason) × (length rows.new ≡ length rows.old) }
{
    if loose.count_ones() > POSITIONS {
        return None;
    }
    if a < 256 {
        return solve_sized::<4>(net, a, target, loose, cube, cells, rows);
    }
    solve_sized::<64>(net, a, target, loose, cube, cells, rows)
}
