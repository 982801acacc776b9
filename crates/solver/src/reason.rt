// WHY: document 01's reason behind a verdict, from which no variable can be dropped; document 02's on a sheet with gauges.
ghost use Rattle.std.specs.Prelude.{◌≡◌, ◌<◌, length};
ghost use Rattle.std.specs.Int.Bits.{bit_or};
ghost use Rattle.words.specs.Mask as Mask;
ghost use Rattle.formula.specs.Why as Formula;
ghost use Rattle.formula.specs.Why.{reduce};
ghost use Rattle.form.specs.Form as Sizes;
ghost use Rattle.net.specs.Layout.{net_form, free_of, gauges_of, val, number};
ghost use Rattle.sheet.specs.Fields.{Sheet, variables};
ghost use Rattle.solver.specs.Contract.{root, Ready, TablesGrown, reason_of, Same};
ghost use Rattle.solver.specs.Aim.{asked_of, Aimed};
ghost use Rattle.solver.specs.Why.{Held, Turned};

use crate::question::{Question, solve};
use crate::verdict::{Answered, failing, ours, unread};
use cube::Cube64;
use records::Counts;
use words::Word;

// What a reason is for: the truth v of what a question with these `all` and `some` asks.
#[derive(Clone, Copy)]
struct Aim {
    v: bool,
    all: u64,
    some: u64,
}

// What is left of a reason's start, and a reason inside it that a proof has shown.
#[derive(Clone, Copy)]
struct Left {
    cube: Cube64,
    reason: u64,
    kept: Counts,
}

// The variables that it hangs on.
fn reach(net: &[u64], aim: Aim) -> u64
    requires { 1 < length net.now }
    ensures { result ≡ Mask.without (free_of net.now) (bit_or aim.some aim.all) }
{
    net::free(net).without(aim.some | aim.all)
}

// One variable: it goes if what is left without it still gives the aim its truth. Outside the proved reason it goes without a search.
fn dropped(
    net: &mut [u64],
    aim: Aim,
    cube: Cube64,
    reason: u64,
    variable: u8,
    under: &mut [u32],
    over: &mut [u32],
    kept: Counts,
) -> Left
    requires variable_low { variable < 64 }
    requires aimed { ((s : Sheet) × Ready s net.old cube.mask cube.values under.old kept.under over.old kept.over) × Aimed net.old aim.all aim.some cube.mask }
    ensures net_unchanged { net.new ≡ net.old }
    ensures turned { (s : Sheet) → Ready s net.old cube.mask cube.values under.old kept.under over.old kept.over → Turned (variables s) (asked_of s aim.all aim.some) (number aim.v) cube.mask cube.values reason variable result.cube.mask result.cube.values result.reason × TablesGrown s under.old kept.under over.old kept.over under.new result.kept.under over.new result.kept.over }
{
    if !cube.mask.has(variable) {
        return Left { cube, reason, kept };
    }
    let less = cube.free(variable);
    if !reason.has(variable) {
        return Left {
            cube: less,
            reason,
            kept,
        };
    }
    let q = Question {
        target: !aim.v,
        loose: reach(&net[..], aim).without(less.mask),
        all: aim.all,
        some: aim.some,
    };
    let s = solve(net, q, less, under, over, kept);
    if s.found {
        return Left {
            cube,
            reason,
            kept: s.kept,
        };
    }
    Left {
        cube: less,
        reason: s.reason,
        kept: s.kept,
    }
}

// How many variables the sheet of the net may have.
fn variables_of(net: &[u64]) -> u8
    ensures { result ≡ Sizes.variables (net_form net.now) }
{
    let form = net::form(net);
    form::variables(form)
}

// What is left of the cube when every variable, from the last to the first, was tried.
fn reduced(
    net: &mut [u64],
    aim: Aim,
    cube: Cube64,
    reason: u64,
    under: &mut [u32],
    over: &mut [u32],
    kept: Counts,
) -> Left
    requires aimed { Aimed net.old aim.all aim.some cube.mask }
    requires ready { (s : Sheet) × Ready s net.old cube.mask cube.values under.old kept.under over.old kept.over × Held (asked_of s aim.all aim.some) (number aim.v) cube.values cube.mask cube.values reason }
    ensures net_unchanged { net.new ≡ net.old }
    ensures mask_value { (s : Sheet) → Ready s net.old cube.mask cube.values under.old kept.under over.old kept.over → Held (asked_of s aim.all aim.some) (number aim.v) cube.values cube.mask cube.values reason → (result.cube.mask ≡ reduce (variables s) (asked_of s aim.all aim.some) cube.values (val (number aim.v)) (variables s) cube.mask) × TablesGrown s under.old kept.under over.old kept.over under.new result.kept.under over.new result.kept.over }
{
    let mut left = Left { cube, reason, kept };
    for x in (0..variables_of(&net[..])).rev() {
        left = dropped(net, aim, left.cube, left.reason, x, under, over, left.kept);
    }
    left
}

// WHY on a sheet without gauges: from the smallest word on yes, from the entries on no.
fn plain(
    net: &mut [u64],
    mask: u64,
    values: u64,
    under: &mut [u32],
    over: &mut [u32],
    kept: Counts,
) -> Answered
    requires { (s : Sheet) × Ready s net.old mask values under.old kept.under over.old kept.over }
    ensures net_unchanged { net.new ≡ net.old }
    ensures same { (s : Sheet) → Ready s net.old mask values under.old kept.under over.old kept.over → Same (Formula.why (variables s) (root s) mask values) result.holds result.word × TablesGrown s under.old kept.under over.old kept.over under.new result.kept.under over.new result.kept.over }
{
    let free = net::free(&net[..]);
    let entered = Cube64::of(mask, values);
    let q = Question {
        target: true,
        loose: free.without(mask),
        all: 0,
        some: 0,
    };
    let s = solve(net, q, entered, under, over, kept);
    if s.found {
        let aim = Aim {
            v: true,
            all: 0,
            some: 0,
        };
        let left = reduced(
            net,
            aim,
            Cube64::of(free, s.word),
            s.reason,
            under,
            over,
            s.kept,
        );
        return Answered {
            holds: true,
            word: left.cube.mask,
            kept: left.kept,
        };
    }
    let aim = Aim {
        v: false,
        all: 0,
        some: 0,
    };
    let left = reduced(net, aim, entered, s.reason, under, over, s.kept);
    Answered {
        holds: false,
        word: left.cube.mask,
        kept: left.kept,
    }
}

// WHY on a sheet with gauges: from the entries for both verdicts.
fn gauged(
    net: &mut [u64],
    mask: u64,
    values: u64,
    under: &mut [u32],
    over: &mut [u32],
    kept: Counts,
) -> Answered
    requires { ((s : Sheet) × Ready s net.old mask values under.old kept.under over.old kept.over) × (0 < gauges_of net.old) }
    ensures net_unchanged { net.new ≡ net.old }
    ensures same { (s : Sheet) → Ready s net.old mask values under.old kept.under over.old kept.over → Same (reason_of s mask values) result.holds result.word × TablesGrown s under.old kept.under over.old kept.over under.new result.kept.under over.new result.kept.over }
{
    let all = unread(&net[..], mask);
    let some = ours(&net[..], mask);
    let entered = Cube64::of(mask, values);
    let s = failing(net, mask, values, under, over, kept);
    if s.found {
        let aim = Aim {
            v: false,
            all,
            some,
        };
        let left = reduced(
            net,
            aim,
            entered,
            s.reason.without(all),
            under,
            over,
            s.kept,
        );
        return Answered {
            holds: false,
            word: left.cube.mask,
            kept: left.kept,
        };
    }
    let aim = Aim { v: true, all, some };
    let left = reduced(net, aim, entered, s.reason, under, over, s.kept);
    Answered {
        holds: true,
        word: left.cube.mask,
        kept: left.kept,
    }
}

// The variables entered, and their values.
pub fn why(
    net: &mut [u64],
    mask: u64,
    values: u64,
    under: &mut [u32],
    over: &mut [u32],
    kept: Counts,
) -> Answered
    requires { (s : Sheet) × Ready s net.old mask values under.old kept.under over.old kept.over }
    ensures net_unchanged { net.new ≡ net.old }
    ensures same { (s : Sheet) → Ready s net.old mask values under.old kept.under over.old kept.over → Same (reason_of s mask values) result.holds result.word × TablesGrown s under.old kept.under over.old kept.over under.new result.kept.under over.new result.kept.over }
{
    if net::gauges(&net[..]) == 0 {
        return plain(net, mask, values, under, over, kept);
    }
    gauged(net, mask, values, under, over, kept)
}
