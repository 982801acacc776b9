// The functions that call each other on falling node numbers. Source 000's subtreeIsSolved is `choose` with `extend`, `settle`, `push`, `branch` and
// `candidate`; its solutionForallChildren is `check` with `evaluate`, `gate` and `quantified`.
ghost use Rattle.std.specs.Prelude.{◌≡◌, true, false, ℕ, ◌+◌, ◌-◌, ◌^◌, ◌<◌, ◌≤◌};
ghost use Rattle.words.specs.Word.{bit};
ghost use Rattle.words.specs.Mask as Mask;
ghost use Rattle.net.specs.Op.{code_of};
ghost use Rattle.net.specs.Layout.{net_form, frames_of, changed, Is, decides, val};
ghost use Rattle.judge.specs.Judge.{Judging};
ghost use Rattle.proxies.specs.Growing.{Growing};
ghost use Rattle.proxies.specs.Kept.{Noted};
ghost use Rattle.search.specs.Search.{Posed, Solved, Checked, Told, Leaf, Lent};

use cube::Cube64;
use implicant::implicant;
use judge::{Known, cells, forward, known_at};
use net::node::{decided, gate_decided};
use net::{Node, Op, node_at};
use phase::one_first;
use proxies::{body_shows, note, recorded};
use records::Counts;
use words::Word;

// What a search found: a word with its reason, or that there is none with the reason. And how many records each table then holds.
#[derive(Clone, Copy)]
pub struct Outcome {
    pub found: bool,
    pub word: u64,
    pub reason: u64,
    pub kept: Counts,
}

// A node's value under a full candidate and its reason, the chain's head, and how many records each table then holds.
#[derive(Clone, Copy)]
struct Valued {
    known: Known,
    head: u16,
    kept: Counts,
}

// Can the variables of the quantifier i, which are the mask, be assigned, over the cube, so that its body has the value d that decides it? Candidates with free variables are tried in the
// order of their words, others by the phases of their variables. `fresh` are the variables fixed since the cells were judged. What is found is explained
// once more, by fewer of the variables outside.
#[cycle(branch_candidate_check_choose_evaluate_extend_gate_push_quantified_settle)]
pub fn choose(
    net: &[u64],
    i: usize,
    body: usize,
    d: u8,
    mask: u64,
    cube: Cube64,
    fresh: u64,
    cells: &mut [u64],
    wants: &mut [u64],
    under: &mut [u32],
    over: &mut [u32],
    kept: Counts,
) -> Outcome
    requires is { (op right : ℕ) × Is net.now i op body right mask × (6 ≤ op) × (d ≡ decides op) }
    requires checked { Checked net.now i cube.mask cube.values cells.old }
    requires lent { Lent net.now wants.old under.old kept.under over.old kept.over }
    ensures solved { Solved net.now body d mask (Mask.without cube.values mask) result.found result.word result.reason × (cells.new ≡ cells.old) }
    ensures growing { Growing net.now under.old kept.under over.old kept.over under.new result.kept.under over.new result.kept.over }
{
    let inner = cube.free_all(mask);
    let out = extend(
        net, body, d, mask, inner, fresh, cells, wants, under, over, kept,
    );
    if out.found {
        let why = implicant(net, body, d, out.word, out.reason, mask, wants);
        return Outcome { reason: why, ..out };
    }
    out
}

// At most one variable. The last loose one is tried without a look for what it is forced to, and with it most of what is unknown comes to be known. Only the time
// depends on this.
fn few(variables: u64) -> bool {
    u64::count_ones(variables) < 2
}

// The variables that judging begins with: those that were fixed, or all where several were and few are left loose.
fn begin(fresh: u64, loose: u64) -> u64 {
    if fresh == 0 {
        return 0;
    }
    if few(loose) {
        if !few(fresh) {
            return forward::ALL;
        }
    }
    fresh
}

// The same for node a, any truth and any loose variables. How much is judged depends on `fresh`, and nothing else does.
#[cycle(branch_candidate_check_choose_evaluate_extend_gate_push_quantified_settle)]
fn extend(
    net: &[u64],
    a: usize,
    target: u8,
    loose: u64,
    cube: Cube64,
    fresh: u64,
    cells: &mut [u64],
    wants: &mut [u64],
    under: &mut [u32],
    over: &mut [u32],
    kept: Counts,
) -> Outcome
    requires posed { Posed net.now a target loose cube.mask cube.values cells.old }
    requires lent { Lent net.now wants.old under.old kept.under over.old kept.over }
    ensures solved { Solved net.now a target loose cube.values result.found result.word result.reason × (cells.new ≡ cells.old) }
    ensures growing { Growing net.now under.old kept.under over.old kept.over under.new result.kept.under over.new result.kept.over }
{
    let touched = begin(fresh, loose);
    let head = forward::judge(net, a, touched, cube, cells, cells::END);
    let out = settle(net, a, target, loose, cube, cells, wants, under, over, kept);
    cells::undo(cells, head);
    out
}

// The same, once the nodes are judged.
#[cycle(branch_candidate_check_choose_evaluate_extend_gate_push_quantified_settle)]
fn settle(
    net: &[u64],
    a: usize,
    target: u8,
    loose: u64,
    cube: Cube64,
    cells: &mut [u64],
    wants: &mut [u64],
    under: &mut [u32],
    over: &mut [u32],
    kept: Counts,
) -> Outcome
    requires posed { Posed net.now a target loose cube.mask cube.values cells.old }
    requires lent { Lent net.now wants.old under.old kept.under over.old kept.over }
    ensures solved { Solved net.now a target loose cube.values result.found result.word result.reason × (cells.new ≡ cells.old) }
    ensures growing { Growing net.now under.old kept.under over.old kept.over under.new result.kept.under over.new result.kept.over }
{
    let known = known_at(&cells[..], a);
    if known.value != 0 {
        return verdict(known, target, cube.values, kept);
    }
    if loose == 0 {
        return candidate(net, a, target, cube, cells, wants, under, over, kept);
    }
    if few(loose) {
        return branch(net, a, target, loose, cube, cells, wants, under, over, kept);
    }
    push(net, a, target, loose, cube, cells, wants, under, over, kept)
}

// The variables that the target forces are set first. A search that fails below them has their reasons in place of them. Where nothing is forced, tables have all
// candidates, if these are few and no quantifier is in between.
#[cycle(branch_candidate_check_choose_evaluate_extend_gate_push_quantified_settle)]
fn push(
    net: &[u64],
    a: usize,
    target: u8,
    loose: u64,
    cube: Cube64,
    cells: &mut [u64],
    wants: &mut [u64],
    under: &mut [u32],
    over: &mut [u32],
    kept: Counts,
) -> Outcome
    requires loose_nonzero { 0 < loose }
    requires posed { Posed net.now a target loose cube.mask cube.values cells.old }
    requires lent { Lent net.now wants.old under.old kept.under over.old kept.over }
    ensures solved { Solved net.now a target loose cube.values result.found result.word result.reason × (cells.new ≡ cells.old) }
    ensures growing { Growing net.now under.old kept.under over.old kept.over under.new result.kept.under over.new result.kept.over }
{
    let mut whys = [0u64; 64];
    let f = imply::force(net, a, target, loose, cube, &cells[..], wants, &mut whys);
    if f.mask == 0 {
        if let Some(t) = lanes::solve(net, a, target, loose, cube, &cells[..], wants) {
            return Outcome {
                found: t.found,
                word: t.word,
                reason: t.reason,
                kept,
            };
        }
        return branch(net, a, target, loose, cube, cells, wants, under, over, kept);
    }
    let rest = loose.without(f.mask);
    let inner = Cube64 {
        mask: cube.mask | f.mask,
        values: cube.values | f.values,
    };
    let out = extend(
        net, a, target, rest, inner, f.mask, cells, wants, under, over, kept,
    );
    if out.found {
        return out;
    }
    let why = imply::gather(&whys, out.reason & f.mask);
    Outcome {
        word: 0,
        reason: out.reason.without(f.mask) | why,
        ..out
    }
}

// Both halves of the highest loose variable: 0 first, or 1 of a bound variable whose phase says so. A half that fails for a reason without the variable settles the other.
#[cycle(branch_candidate_check_choose_evaluate_extend_gate_push_quantified_settle)]
fn branch(
    net: &[u64],
    a: usize,
    target: u8,
    loose: u64,
    cube: Cube64,
    cells: &mut [u64],
    wants: &mut [u64],
    under: &mut [u32],
    over: &mut [u32],
    kept: Counts,
) -> Outcome
    requires loose_nonzero { 0 < loose }
    requires posed { Posed net.now a target loose cube.mask cube.values cells.old }
    requires lent { Lent net.now wants.old under.old kept.under over.old kept.over }
    ensures solved { Solved net.now a target loose cube.values result.found result.word result.reason × (cells.new ≡ cells.old) }
    ensures growing { Growing net.now under.old kept.under over.old kept.over under.new result.kept.under over.new result.kept.over }
{
    let x = loose.highest();
    let only = u64::one(x);
    let rest = loose.without(only);
    let first = one_first(net, x);
    let begun = cube.fix(x, first);
    let low = extend(
        net, a, target, rest, begun, only, cells, wants, under, over, kept,
    );
    if low.found {
        return low;
    }
    if !low.reason.has(x) {
        return low;
    }
    let turned = cube.fix(x, !first);
    let high = extend(
        net, a, target, rest, turned, only, cells, wants, under, over, low.kept,
    );
    if high.found {
        return high;
    }
    if !high.reason.has(x) {
        return high;
    }
    Outcome {
        word: 0,
        reason: (low.reason | high.reason).without(only),
        ..high
    }
}

// What a search finds where the node's value is known.
fn verdict(known: Known, target: u8, word: u64, kept: Counts) -> Outcome
    ensures { (result.found ≡ true → known.value ≡ target) × (result.found ≡ false → known.value ≡ target → ⊥) × (result.word ≡ word) × (result.reason ≡ known.reason) × (result.kept ≡ kept) }
{
    Outcome {
        found: known.value == target,
        word,
        reason: known.reason,
        kept,
    }
}

// A full candidate: the nodes that its value still depends on are checked.
#[cycle(branch_candidate_check_choose_evaluate_extend_gate_push_quantified_settle)]
fn candidate(
    net: &[u64],
    a: usize,
    target: u8,
    cube: Cube64,
    cells: &mut [u64],
    wants: &mut [u64],
    under: &mut [u32],
    over: &mut [u32],
    kept: Counts,
) -> Outcome
    requires posed { Posed net.now a target 0 cube.mask cube.values cells.old }
    requires lent { Lent net.now wants.old under.old kept.under over.old kept.over }
    ensures solved { Solved net.now a target 0 cube.values result.found result.word result.reason × (cells.new ≡ cells.old) }
    ensures growing { Growing net.now under.old kept.under over.old kept.over under.new result.kept.under over.new result.kept.over }
{
    let c = check(net, a, cube, cells, wants, cells::END, under, over, kept);
    cells::undo(cells, c.head);
    verdict(c.known, target, cube.values, c.kept)
}

// The value of node i under a full candidate. It goes down to the quantifiers that the value still depends on, so that a proxy stays undefined until it
// is needed.
#[cycle(branch_candidate_check_choose_evaluate_extend_gate_push_quantified_settle)]
fn check(
    net: &[u64],
    i: usize,
    cube: Cube64,
    cells: &mut [u64],
    wants: &mut [u64],
    head: u16,
    under: &mut [u32],
    over: &mut [u32],
    kept: Counts,
) -> Valued
    requires i_bound { (i < frames_of net.now + 2) × Checked net.now i cube.mask cube.values cells.old }
    requires lent { Lent net.now wants.old under.old kept.under over.old kept.over }
    ensures told { Told net.now cube.mask cube.values i result.known.value result.known.reason × Judging net.now cube.mask cube.values cells.old head cells.new result.head }
    ensures growing { Growing net.now under.old kept.under over.old kept.over under.new result.kept.under over.new result.kept.over }
{
    let known = known_at(&cells[..], i);
    if known.value != 0 {
        return Valued { known, head, kept };
    }
    let c = evaluate(net, i, cube, cells, wants, head, under, over, kept);
    let at = forward::keep(cells, i, c.known, c.head);
    Valued { head: at, ..c }
}

// A variable under a full candidate.
fn input(values: u64, v: u8) -> Known
    requires { v < 64 }
    ensures { (val result.value ≡ bit values v) × (result.reason ≡ 2 ^ v) × (0 < result.value) × (result.value < 3) }
{
    let only = u64::one(v);
    if values.has(v) {
        return Known {
            value: 2,
            reason: only,
        };
    }
    Known {
        value: 1,
        reason: only,
    }
}

// A constant, or an input under a full candidate.
fn leaf(op: Op, left: usize, cube: Cube64) -> Known
    requires { (code_of op < 3) × (code_of op ≡ 2 → left < 64) }
    ensures { Leaf (code_of op) left cube.values result.value result.reason }
{
    match op {
        Op::False => Known {
            value: 1,
            reason: 0,
        },
        Op::True => Known {
            value: 2,
            reason: 0,
        },
        _ => input(cube.values, forward::variable(left)),
    }
}

// The value of node i, from those of the nodes that it names.
#[cycle(branch_candidate_check_choose_evaluate_extend_gate_push_quantified_settle)]
fn evaluate(
    net: &[u64],
    i: usize,
    cube: Cube64,
    cells: &mut [u64],
    wants: &mut [u64],
    head: u16,
    under: &mut [u32],
    over: &mut [u32],
    kept: Counts,
) -> Valued
    requires i_bound { (i < frames_of net.now + 2) × Checked net.now i cube.mask cube.values cells.old }
    requires lent { Lent net.now wants.old under.old kept.under over.old kept.over }
    ensures told { Told net.now cube.mask cube.values i result.known.value result.known.reason × Judging net.now cube.mask cube.values cells.old head cells.new result.head }
    ensures growing { Growing net.now under.old kept.under over.old kept.over under.new result.kept.under over.new result.kept.over }
{
    let node = node_at(net, i);
    match node.op {
        Op::False | Op::True | Op::Input => {
            let known = leaf(node.op, node.left, cube);
            Valued { known, head, kept }
        }
        Op::Not => {
            let c = check(net, node.left, cube, cells, wants, head, under, over, kept);
            let known = Known {
                value: 3 - c.known.value,
                ..c.known
            };
            Valued { known, ..c }
        }
        Op::And | Op::Or => gate(net, i, node, cube, cells, wants, head, under, over, kept),
        Op::Exists | Op::Forall => {
            quantified(net, i, node, cube, cells, wants, head, under, over, kept)
        }
    }
}

// The value of a gate. AND is decided by 1, OR by 2.
#[cycle(branch_candidate_check_choose_evaluate_extend_gate_push_quantified_settle)]
fn gate(
    net: &[u64],
    i: usize,
    node: Node,
    cube: Cube64,
    cells: &mut [u64],
    wants: &mut [u64],
    head: u16,
    under: &mut [u32],
    over: &mut [u32],
    kept: Counts,
) -> Valued
    requires is { Is net.now i (code_of node.op) node.left node.right node.mask × (4 ≤ code_of node.op) × (code_of node.op < 6) }
    requires i_bound { (i < frames_of net.now + 2) × Checked net.now i cube.mask cube.values cells.old }
    requires lent { Lent net.now wants.old under.old kept.under over.old kept.over }
    ensures told { Told net.now cube.mask cube.values i result.known.value result.known.reason × Judging net.now cube.mask cube.values cells.old head cells.new result.head }
    ensures growing { Growing net.now under.old kept.under over.old kept.over under.new result.kept.under over.new result.kept.over }
{
    let d = gate_decided(node.op);
    let c = check(net, node.left, cube, cells, wants, head, under, over, kept);
    if c.known.value == d {
        return c;
    }
    let e = check(
        net, node.right, cube, cells, wants, c.head, under, over, c.kept,
    );
    if e.known.value == d {
        return e;
    }
    let known = Known {
        reason: c.known.reason | e.known.reason,
        ..e.known
    };
    Valued { known, ..e }
}

// The value of a quantifier. An agreeing record settles it; else its body is searched, and what that shows is kept. Behind the frames, and
// of a changed node, there are no records.
#[cycle(branch_candidate_check_choose_evaluate_extend_gate_push_quantified_settle)]
fn quantified(
    net: &[u64],
    i: usize,
    node: Node,
    cube: Cube64,
    cells: &mut [u64],
    wants: &mut [u64],
    head: u16,
    under: &mut [u32],
    over: &mut [u32],
    kept: Counts,
) -> Valued
    requires is { Is net.now i (code_of node.op) node.left node.right node.mask × (6 ≤ code_of node.op) }
    requires i_bound { (i < frames_of net.now + 2) × Checked net.now i cube.mask cube.values cells.old }
    requires lent { Lent net.now wants.old under.old kept.under over.old kept.over }
    ensures told { Told net.now cube.mask cube.values i result.known.value result.known.reason × Judging net.now cube.mask cube.values cells.old head cells.new result.head }
    ensures growing { Growing net.now under.old kept.under over.old kept.over under.new result.kept.under over.new result.kept.over }
    ensures noted { i < frames_of net.now → changed net.now i ≡ false → Noted (net_form net.now) i result.known.value cube.values under.new result.kept.under over.new result.kept.over }
{
    let known = recorded(net, i, cube.values, &under[..], &over[..], kept);
    if known.value != 0 {
        return Valued { known, head, kept };
    }
    let d = decided(node.op);
    let s = choose(
        net, i, node.left, d, node.mask, cube, 0, cells, wants, under, over, kept,
    );
    let shown = body_shows(d, node.mask, s.found, s.reason);
    let after = note(net, i, shown, cube.values, under, over, s.kept);
    Valued {
        known: shown,
        head,
        kept: after,
    }
}
