// One question to the search, as quantifiers over the last frame: nodes like any other, at the places that the net keeps for them. The scratch is the
// question's own, so that what is judged at its beginning is never set back.
ghost use Rattle.std.specs.Prelude.{◌≡◌, ◌+◌, ◌*◌, ◌<◌, ◌≤◌, length};
ghost use Rattle.sheet.specs.Fields.{Sheet};
ghost use Rattle.net.specs.Layout.{frames_of, Ground, number};
ghost use Rattle.proxies.specs.Growing.{Growing};
ghost use Rattle.search.specs.Search.{Settled};
ghost use Rattle.solver.specs.Question.{asked, Masks, Asking, Layered, Placed, Scratch};

use cube::Cube64;
use form::Form;
use judge::forward::ALL;
use judge::{cells, forward};
use net::node::decided;
use records::Counts;
use search::Outcome;

// Can the loose variables be assigned so that the target's truth is that of: for every setting of `all` some setting of `some` makes the last frame true?
// Where both are empty, that is the last frame's own.
#[derive(Clone, Copy)]
pub struct Question {
    pub target: bool,
    pub loose: u64,
    pub all: u64,
    pub some: u64,
}

// So many assigned variables touch most nodes.
const MANY: u32 = 8;

// The variables that judging begins with: all, where many are assigned; else these, and variable 0, among whose readers the constants stand.
fn fresh(assigned: u64) -> u64 {
    if assigned.count_ones() > MANY {
        return ALL;
    }
    assigned | 1
}

// Puts the quantifier that the truth d decides at place i, if it has variables. The answer is the next place.
fn layer(net: &mut [u64], i: usize, d: bool, mask: u64) -> usize
    requires { Ground net.old × (0 < frames_of net.old) × (i < 3) }
    ensures { Layered net.old i (number d) mask net.new result }
{
    if mask == 0 {
        return i;
    }
    net::choose(net, i, d, mask);
    i + 1
}

// Puts the question behind the frames. The answer is its node.
fn pose(net: &mut [u64], q: Question) -> usize
    requires { (s : Sheet) × Masks s net.old (number q.target) q.loose q.all q.some }
    ensures { (s : Sheet) → Masks s net.old (number q.target) q.loose q.all q.some → Placed s net.old (number q.target) q.loose q.all q.some net.new result }
{
    let inner = layer(net, 0, true, q.some);
    let outer = layer(net, inner, false, q.all);
    net::choose(net, outer, q.target, q.loose);
    net::frames(&net[..]) + outer
}

// The search of the question in scratch that is lent, whose cells are empty.
fn solve_in(
    net: &mut [u64],
    q: Question,
    cube: Cube64,
    cells: &mut [u64],
    wants: &mut [u64],
    under: &mut [u32],
    over: &mut [u32],
    kept: Counts,
) -> Outcome
    requires asking { (s : Sheet) × Asking s net.old (number q.target) q.loose q.all q.some cube.mask cube.values under.old kept.under over.old kept.over }
    requires scratch { Scratch net.old cells.old wants.old }
    ensures settled { Settled (asked net.old q.all q.some) (number q.target) q.loose cube.values result.found result.word result.reason }
    ensures growing { Growing net.old under.old kept.under over.old kept.over under.new result.kept.under over.new result.kept.over }
    ensures net_unchanged { net.new ≡ net.old }
{
    let own = pose(net, q);
    let node = net::node_at(&net[..], own);
    forward::judge(
        &net[..],
        node.left,
        fresh(cube.mask),
        cube,
        cells,
        cells::END,
    );
    let out = search::choose(
        &net[..],
        own,
        node.left,
        decided(node.op),
        node.mask,
        cube,
        0,
        cells,
        wants,
        under,
        over,
        kept,
    );
    net::forget(net);
    out
}

// The same with scratch of so many words.
fn solve_sized<const CELLS: usize, const WANTS: usize>(
    net: &mut [u64],
    q: Question,
    cube: Cube64,
    under: &mut [u32],
    over: &mut [u32],
    kept: Counts,
) -> Outcome
    requires asking { (s : Sheet) × Asking s net.old (number q.target) q.loose q.all q.some cube.mask cube.values under.old kept.under over.old kept.over }
    requires room { (length net.old ≤ 67 + CELLS) × (2 * WANTS ≡ 3 * CELLS) × (WANTS < 10000) }
    ensures settled { Settled (asked net.old q.all q.some) (number q.target) q.loose cube.values result.found result.word result.reason }
    ensures growing { Growing net.old under.old kept.under over.old kept.over under.new result.kept.under over.new result.kept.over }
    ensures net_unchanged { net.new ≡ net.old }
{
    let mut cells = [0u64; CELLS];
    let mut wants = [0u64; WANTS];
    solve_in(net, q, cube, &mut cells, &mut wants, under, over, kept)
}

// The search of a question over the cube, which fixes every free variable that is in none of the question's masks. The net is as before after it. Each form
// has scratch for its largest sheets.
pub fn solve(
    net: &mut [u64],
    q: Question,
    cube: Cube64,
    under: &mut [u32],
    over: &mut [u32],
    kept: Counts,
) -> Outcome
    requires { (s : Sheet) × Asking s net.old (number q.target) q.loose q.all q.some cube.mask cube.values under.old kept.under over.old kept.over }
    ensures settled { Settled (asked net.old q.all q.some) (number q.target) q.loose cube.values result.found result.word result.reason }
    ensures growing { Growing net.old under.old kept.under over.old kept.over under.new result.kept.under over.new result.kept.over }
    ensures net_unchanged { net.new ≡ net.old }
{
    let form = net::form(&net[..]);
    match form {
        Form::Narrow => solve_sized::<406, 609>(net, q, cube, under, over, kept),
        Form::Wide => solve_sized::<6006, 9009>(net, q, cube, under, over, kept),
    }
}
