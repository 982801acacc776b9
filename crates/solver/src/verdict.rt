// ASK: whether the free variables that are not entered can be chosen so that the sheet holds, whatever the gauges among them are, and the smallest choice.
ghost use Rattle.std.specs.Prelude.{◌≡◌, ◌<◌, ◌≤◌, length};
ghost use Rattle.formula.specs.Ask as Formula;
ghost use Rattle.form.specs.Form.{record_start, word_end};
ghost use Rattle.formula.specs.Gauges.{possible};
ghost use Rattle.sheet.specs.Fields.{Sheet, variables};
ghost use Rattle.sheet.specs.Rules.{gauges};
ghost use Rattle.search.specs.Search.{Settled};
ghost use Rattle.net.specs.Layout.{Ground, net_form, frames_of};
ghost use Rattle.net.specs.Sheet.{NetOf};
ghost use Rattle.solver.specs.Contract.{root, Ready, TablesGrown, verdict_of, unread_of, ours_of, Promised, Same};
ghost use Rattle.solver.specs.Ask.{Ensured, PromisedChosen};
ghost use Rattle.solver.specs.GaugedAsk.{Failed};

use crate::question::{Question, solve};
use cube::Cube64;
use form::Form;
use proxies::low;
use records::Counts;
use search::Outcome;
use words::Word;

// A verdict and its word, and how many records each table then holds.
#[derive(Clone, Copy)]
pub struct Answered {
    pub holds: bool,
    pub word: u64,
    pub kept: Counts,
}

// Makes sure of a record of the frame that speaks of assigned variables only and agrees with the setting: the reason is put where none does.
fn ensure(
    table: &mut [u32],
    form: Form,
    count: usize,
    frame: u32,
    assigned: u64,
    setting: u64,
    reason: u64,
) -> usize
    requires { (record_start form count ≤ length table.old) × (assigned < word_end form) × (reason < word_end form) }
    ensures { Ensured form table.old count table.new result frame assigned setting reason }
{
    if let Some(_) = records::search(&table[..], form, count, frame, assigned, setting) {
        return count;
    }
    records::put(table, form, count, frame, reason, setting & reason)
}

// ASK where every free variable that is not entered is ours to choose.
fn chosen(
    net: &mut [u64],
    mask: u64,
    values: u64,
    under: &mut [u32],
    over: &mut [u32],
    kept: Counts,
) -> Answered
    requires { (s : Sheet) × Ready s net.old mask values under.old kept.under over.old kept.over }
    ensures net_unchanged { net.new ≡ net.old }
    ensures same { (s : Sheet) → Ready s net.old mask values under.old kept.under over.old kept.over → Same (Formula.ask (variables s) (root s) mask values) result.holds result.word × TablesGrown s under.old kept.under over.old kept.over under.new result.kept.under over.new result.kept.over × PromisedChosen s mask values (Formula.ask (variables s) (root s) mask values) under.new result.kept.under over.new result.kept.over }
{
    let form = net::form(&net[..]);
    let free = net::free(&net[..]);
    let last = net::frames(&net[..]) - 1;
    let s = solve(
        net,
        Question {
            target: true,
            loose: free.without(mask),
            all: 0,
            some: 0,
        },
        Cube64::of(mask, values),
        under,
        over,
        kept,
    );
    if s.found {
        let n = ensure(
            under,
            form,
            s.kept.under,
            last as u32,
            low(form, free),
            low(form, s.word),
            low(form, s.reason),
        );
        return Answered {
            holds: true,
            word: s.word,
            kept: Counts { under: n, ..s.kept },
        };
    }
    let n = ensure(
        over,
        form,
        s.kept.over,
        last as u32,
        low(form, mask),
        low(form, values),
        low(form, s.reason),
    );
    Answered {
        holds: false,
        word: 0,
        kept: Counts { over: n, ..s.kept },
    }
}

// The gauges that are free and not entered.
pub fn unread(net: &[u64], mask: u64) -> u64
    requires { (s : Sheet) × NetOf s net.now }
    ensures { (s : Sheet) → NetOf s net.now → result ≡ unread_of s mask }
{
    net::free(net).without(mask) & net::gauges(net)
}

// The other free variables that are not entered.
pub fn ours(net: &[u64], mask: u64) -> u64
    requires { (s : Sheet) × NetOf s net.now }
    ensures { (s : Sheet) → NetOf s net.now → result ≡ ours_of s mask }
{
    net::free(net).without(mask).without(net::gauges(net))
}

// The smallest setting of the unread gauges under which no choice of the others makes the sheet hold.
pub fn failing(
    net: &mut [u64],
    mask: u64,
    values: u64,
    under: &mut [u32],
    over: &mut [u32],
    kept: Counts,
) -> Outcome
    requires { (s : Sheet) × Ready s net.old mask values under.old kept.under over.old kept.over }
    ensures net_unchanged { net.new ≡ net.old }
    ensures settled { (s : Sheet) → Ready s net.old mask values under.old kept.under over.old kept.over → Settled (possible (variables s) (root s) (gauges s) mask) 1 (unread_of s mask) values result.found result.word result.reason × TablesGrown s under.old kept.under over.old kept.over under.new result.kept.under over.new result.kept.over }
{
    let unset = unread(&net[..], mask);
    let rest = ours(&net[..], mask);
    let q = Question {
        target: false,
        loose: unset,
        all: 0,
        some: rest,
    };
    solve(net, q, Cube64::of(mask, values), under, over, kept)
}

// A no, by a setting that fails: its record speaks of the assigned variables only.
fn failed(net: &[u64], assigned: u64, mask: u64, s: Outcome, over: &mut [u32]) -> Answered
    requires { Ground net.now × (0 < frames_of net.now) × (record_start (net_form net.now) s.kept.over ≤ length over.old) }
    ensures { Failed net.now assigned mask s.word s.reason over.old s.kept.over over.new result.kept.over result.holds result.word × (result.kept.under ≡ s.kept.under) }
{
    let form = net::form(net);
    let last = net::frames(net) - 1;
    let why = s.reason;
    let n = ensure(
        over,
        form,
        s.kept.over,
        last as u32,
        low(form, assigned),
        low(form, s.word),
        low(form, why),
    );
    Answered {
        holds: false,
        word: s.word.without(mask),
        kept: Counts { over: n, ..s.kept },
    }
}

// The variables entered, and their values.
pub fn ask(
    net: &mut [u64],
    mask: u64,
    values: u64,
    under: &mut [u32],
    over: &mut [u32],
    kept: Counts,
) -> Answered
    requires { (s : Sheet) × Ready s net.old mask values under.old kept.under over.old kept.over }
    ensures net_unchanged { net.new ≡ net.old }
    ensures same { (s : Sheet) → Ready s net.old mask values under.old kept.under over.old kept.over → Same (verdict_of s mask values) result.holds result.word × TablesGrown s under.old kept.under over.old kept.over under.new result.kept.under over.new result.kept.over × Promised s mask values (verdict_of s mask values) under.new result.kept.under over.new result.kept.over }
{
    let waiting = unread(&net[..], mask);
    if waiting == 0 {
        return chosen(net, mask, values, under, over, kept);
    }
    let s = failing(net, mask, values, under, over, kept);
    if s.found {
        return failed(&net[..], mask | waiting, mask, s, over);
    }
    chosen(net, mask | waiting, values, under, over, s.kept)
}
