// What stands for a quantifier while a candidate is checked, as source 000's proxy: what two tables of records say of it, what a search of its body shows,
// and what of that is kept. Records speak of the variables of their form.
#![tactic(auto)]

ghost use Rattle.std.specs.Prelude.{◌≡◌, false, List, ℕ, ◌%◌, ◌<◌, ◌≤◌, length};
ghost use Rattle.words.specs.Word.{bit};
ghost use Rattle.formula.specs.Reason.{Explains};
ghost use Rattle.form.specs.Form.{record_start, word_end};
ghost use Rattle.net.specs.Layout.{Ground, net_form, frames_of, changed, decides, formula_at, val};
ghost use Rattle.proxies.specs.Growing.{Growing};
ghost use Rattle.proxies.specs.Kept as Kept;
ghost use Rattle.proxies.specs.Kept.{Recorded, RecordedNode, Noted, Shown};

use form::Form;
use judge::Known;
use records::Counts;
use words::Word;

// Every variable of a record.
fn all(form: Form) -> u64
    ensures { result ≡ Kept.all form }
{
    match form {
        Form::Narrow => 4294967295,
        Form::Wide => 18446744073709551615,
    }
}

// The part of a word that records speak of: in a wide one all of it.
pub fn low(form: Form, word: u64) -> u64
    ensures { result ≡ word % word_end form }
{
    match form {
        Form::Narrow => word % 4294967296,
        Form::Wide => word,
    }
}

// What a record says of the frame under a full candidate: source 000's n.U (under table) or the complement of n.O (over table).
fn recorded_frame(
    form: Form,
    frame: usize,
    word: u64,
    under: &[u32],
    over: &[u32],
    kept: Counts,
) -> Known
    requires { (frame < 4096) × (record_start form kept.under ≤ length under.now) × (record_start form kept.over ≤ length over.now) }
    ensures { Recorded form frame word under.now kept.under over.now kept.over result.value result.reason }
{
    let setting = low(form, word);
    let every = all(form);
    let frame = frame as u32;
    if let Some(j) = records::search(under, form, kept.under, frame, every, setting) {
        let reason = records::mask_of(under, form, j);
        return Known { value: 2, reason };
    }
    if let Some(j) = records::search(over, form, kept.over, frame, every, setting) {
        let reason = records::mask_of(over, form, j);
        return Known { value: 1, reason };
    }
    Known {
        value: 0,
        reason: 0,
    }
}

// The same of node i. Records are of frames: of a quantifier behind them, a question's, there is none, and none is used of a node that is changed.
pub fn recorded(
    net: &[u64],
    i: usize,
    word: u64,
    under: &[u32],
    over: &[u32],
    kept: Counts,
) -> Known
    requires { Ground net.now × (record_start (net_form net.now) kept.under ≤ length under.now) × (record_start (net_form net.now) kept.over ≤ length over.now) }
    ensures { RecordedNode net.now i word under.now kept.under over.now kept.over result.value result.reason }
{
    if i < net::frames(net) && !net::changed(net, i) {
        return recorded_frame(net::form(net), i, word, under, over, kept);
    }
    Known {
        value: 0,
        reason: 0,
    }
}

// What the search of its body shows of a quantifier over the mask that the value d decides.
pub fn body_shows(d: u8, mask: u64, found: bool, reason: u64) -> Known
    ensures { (op : ℕ) → d ≡ decides op → Shown op mask found reason result.value result.reason }
{
    if found {
        return Known {
            value: d,
            reason: reason.without(mask),
        };
    }
    if d == 2 {
        return Known { value: 1, reason };
    }
    Known { value: 2, reason }
}

// Keeps that the frame has the value wherever the variables of the reason are as in the word: source 000's update of U (MBU) or of O (MBO).
fn note_frame(
    form: Form,
    frame: usize,
    known: Known,
    word: u64,
    under: &mut [u32],
    over: &mut [u32],
    kept: Counts,
) -> Counts
    requires { (frame < 4096) × (record_start form kept.under ≤ length under.old) × (record_start form kept.over ≤ length over.old) × (0 < known.value) × (known.value < 3) }
    ensures { (net : List ℕ) → Ground net → form ≡ net_form net → frame < frames_of net → changed net frame ≡ false → Explains (formula_at net frame) (val known.value) (bit known.reason) (bit word) → Growing net under.old kept.under over.old kept.over under.new result.under over.new result.over × Noted (net_form net) frame known.value word under.new result.under over.new result.over }
{
    let mask = low(form, known.reason);
    let values = low(form, word & known.reason);
    if known.value == 2 {
        let n = records::put(under, form, kept.under, frame as u32, mask, values);
        return Counts { under: n, ..kept };
    }
    let n = records::put(over, form, kept.over, frame as u32, mask, values);
    Counts { over: n, ..kept }
}

// The same of node i. Of a quantifier behind the frames, and of a changed node, nothing is kept.
pub fn note(
    net: &[u64],
    i: usize,
    known: Known,
    word: u64,
    under: &mut [u32],
    over: &mut [u32],
    kept: Counts,
) -> Counts
    requires { Ground net.now × (record_start (net_form net.now) kept.under ≤ length under.old) × (record_start (net_form net.now) kept.over ≤ length over.old) × (0 < known.value) × (known.value < 3) }
    ensures { Explains (formula_at net.now i) (val known.value) (bit known.reason) (bit word) → Growing net.now under.old kept.under over.old kept.over under.new result.under over.new result.over × (i < frames_of net.now → changed net.now i ≡ false → Noted (net_form net.now) i known.value word under.new result.under over.new result.over) }
{
    if i >= net::frames(net) || net::changed(net, i) {
        return kept;
    }
    note_frame(net::form(net), i, known, word, under, over, kept)
}
