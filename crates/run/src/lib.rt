// A script run over a sheet of either form.
#![tactic(auto)]

mod answer;

ghost use Rattle.std.specs.Prelude.{◌≡◌, List, ◌++◌, ℕ, ◌+◌, ◌<◌, ◌≤◌, length};
ghost use Rattle.form.specs.Form.{answers_in};
ghost use Rattle.sheet.specs.Cause.{first};
ghost use Rattle.sheet.specs.Check.{Checks};
ghost use Rattle.sheet.specs.Fields.{sheet_of};
ghost use Rattle.sheet.specs.Told.{fault_number, refused_number, refused_place, free_told, gauges_told};
ghost use Rattle.model.specs.Model.{lines};
ghost use Rattle.net.specs.Layout.{free_of, net_words};
ghost use Rattle.net.specs.Sheet.{Checked, NetOf};
ghost use Rattle.session.specs.Sound.{OnNet};
ghost use Rattle.certificate.specs.Run.{script_causes, room_causes, causes, Run};
ghost use Rattle.certificate.specs.Progress.{LineIs, LineRun, Progress};
ghost use Rattle.run.specs.Told.{under_told, over_told};

use form::Form;
use records::Counts;
use session::Session;
use session::script::LineBytes;
use sheet::Accepted;
use sheet::refusal::{Fault, Refused};

// A script has so many lines at most.
const MOST_LINES: usize = 1000;

// Whether the script is one, and the answer buffer has room for an answer a line.
#[tactic(auto, unfolding(sheet::specs::Cause::first, certificate::specs::Run::script_causes, certificate::specs::Run::room_causes))]
fn check_script(form: Form, script: &[u8], room: usize) -> Result<(), Fault>
    ensures { fault_number result ≡ (first (script_causes script.now ++ room_causes form script.now room)).number }
{
    let n = script.len() / 4;
    if script.len() % 4 != 0 {
        return Err(Fault::NotWhole);
    }
    if n > MOST_LINES {
        return Err(Fault::ScriptTooLong);
    }
    if form::answers(form, room) < n {
        return Err(Fault::NoRoom);
    }
    Ok(())
}

// The run's refusal, in document 01's order, or none, with the free variables of the sheet's last frame and the sheet's gauges.
fn check(sheet: &[u8], form: Form, script: &[u8], room: usize) -> Result<Accepted, Refused>
    ensures { Checks (causes (sheet_of form sheet.now) script.now room) (sheet_of form sheet.now) (refused_number result) (refused_place result) (free_told result) (gauges_told result) }
{
    sheet::check_size(form, sheet.len())?;
    check_script(form, script, room)?;
    sheet::check_frames(sheet, form)
}

// Line i.
fn line_at(script: &[u8], i: usize) -> LineBytes
    requires { i < lines script.now }
    ensures { LineIs script.now i result.k result.a result.b result.c }
{
    let at = i * 4;
    LineBytes {
        k: script[at],
        a: script[at + 1],
        b: script[at + 2],
        c: script[at + 3],
    }
}

// Line i: the session steps in place, and its answer is written.
fn run_line(
    form: Form,
    session: &mut Session,
    i: usize,
    net: &mut [u64],
    script: &[u8],
    answers: &mut [u8],
    under: &mut [u32],
    over: &mut [u32],
)
    requires { ((b : List ℕ) × OnNet (sheet_of form b) net.old session.old under.old over.old) × ((i < lines script.now) × (i < answers_in form (length answers.old))) }
    ensures { (net.new ≡ net.old) × ((b : List ℕ) → OnNet (sheet_of form b) net.old session.old under.old over.old → LineRun (sheet_of form b) script.now (free_of net.old) i session.old answers.old under.old over.old session.new answers.new under.new over.new) }
{
    let line = line_at(script, i);
    let told = session::inplace::step(session, line, net, under, over);
    answer::write_at(answers, form, i, told);
}

// Every line in turn, from no entry and no record.
fn run_lines(
    form: Form,
    net: &mut [u64],
    script: &[u8],
    answers: &mut [u8],
    under: &mut [u32],
    over: &mut [u32],
) -> Session
    requires { ((b : List ℕ) × Checked (sheet_of form b) (free_of net.old) × NetOf (sheet_of form b) net.old) × (lines script.now ≤ answers_in form (length answers.old)) }
    ensures { (b : List ℕ) → Checked (sheet_of form b) (free_of net.old) → NetOf (sheet_of form b) net.old → Progress (sheet_of form b) script.now (free_of net.old) answers.old under.old over.old (lines script.now) result answers.new under.new over.new }
{
    let mut session = Session::empty();
    for i in 0..script.len() / 4 {
        run_line(form, &mut session, i, net, script, answers, under, over);
    }
    session
}

// A run with room for a net of N words. It is a call of its own, so that a narrow sheet's takes no stack for the net of a wide one.
#[inline(never)]
fn run_sized<const N: usize>(
    sheet: &[u8],
    form: Form,
    script: &[u8],
    answers: &mut [u8],
    under: &mut [u32],
    over: &mut [u32],
) -> Result<Counts, Refused>
    requires { N ≡ net_words form }
    ensures { Run (sheet_of form sheet.now) script.now answers.old under.old over.old answers.new under.new over.new (refused_number result) (refused_place result) (under_told result) (over_told result) }
{
    let accepted = check(sheet, form, script, answers.len())?;
    let mut net = [0u64; N];
    phase::load(sheet, form, accepted, &mut net);
    let last = run_lines(form, &mut net, script, answers, under, over);
    Ok(last.kept)
}

// Runs a script over a sheet: one answer a line, of six bytes or of ten, from the start of the answers. It tells how many records the tables hold; what
// they held is ignored.
pub fn run(
    sheet: &[u8],
    form: Form,
    script: &[u8],
    answers: &mut [u8],
    under: &mut [u32],
    over: &mut [u32],
) -> Result<Counts, Refused>
    ensures { Run (sheet_of form sheet.now) script.now answers.old under.old over.old answers.new under.new over.new (refused_number result) (refused_place result) (under_told result) (over_told result) }
{
    match form {
        Form::Narrow => run_sized::<473>(sheet, form, script, answers, under, over),
        Form::Wide => run_sized::<6073>(sheet, form, script, answers, under, over),
    }
}
