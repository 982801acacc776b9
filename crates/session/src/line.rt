// One script line by value.
ghost use Rattle.std.specs.Prelude.{◌≡◌, [], ◌∷◌, ◌++◌, ◌+◌, ◌-◌, ◌<◌, length, take};
ghost use Rattle.sheet.specs.Fields.{Sheet};
ghost use Rattle.sheet.specs.Told.{fault_number};
ghost use Rattle.net.specs.Layout.{free_of};
ghost use Rattle.model.specs.Model.{reply, counted, told, judged};
ghost use Rattle.model.specs.Entries.{entry_at};
ghost use Rattle.session.specs.Sound.{standing_of, Shaped, Fresh, OnNet};
ghost use Rattle.session.specs.Line.{answer_of, session_after, v_told, word_told};
ghost use Rattle.session.specs.Step.{ask_of, why_of, PromisedFor, Tells, Replies, Searches, Step};

use crate::script::{Line, LineBytes};
use crate::{Answer, Entry, Session, Stepped, causes};
use sheet::refusal::Fault;

// An entry, as TAKE BACK and READ tell it.
fn tell_entry(entry: Entry) -> Answer
    ensures { Tells (told entry) 0 result.v result.word }
{
    Answer {
        v: entry.variable,
        word: 256 * u64::from(entry.desk) + u64::from(entry.value),
    }
}

fn enter(session: Session, variable: u8, value: u8, desk: u8) -> Stepped
    requires { Shaped session × (session.len < 64) × Fresh session variable }
    ensures { Replies session (reply (counted (length (standing_of session) + 1)) (standing_of session ++ (record { variable = variable; value = value; desk = desk } ∷ []))) result.session 0 result.answer.v result.answer.word }
{
    let n = session.len + 1;
    let entry = Entry {
        variable,
        value,
        desk,
    };
    let longer = session.append(entry);
    let answer = Answer {
        v: n as u8,
        word: 0,
    };
    Stepped {
        session: longer,
        answer,
    }
}

fn take_back(session: Session) -> Stepped
    requires { Shaped session × (0 < session.len) }
    ensures { Replies session (reply (told (entry_at (standing_of session) (length (standing_of session) - 1))) (take (length (standing_of session) - 1) (standing_of session))) result.session 0 result.answer.v result.answer.word }
{
    let last = session.len - 1;
    let answer = tell_entry(session.entry_at(last));
    let shorter = session.remove_last();
    Stepped {
        session: shorter,
        answer,
    }
}

fn read(session: Session, place: u8) -> Stepped
    requires { Shaped session × (place < session.len) }
    ensures { Replies session (reply (told (entry_at (standing_of session) place)) (standing_of session)) result.session 0 result.answer.v result.answer.word }
{
    let answer = tell_entry(session.entry_at(usize::from(place)));
    Stepped { session, answer }
}

// A verdict, as ASK and WHY tell it.
fn tell_verdict(holds: bool, word: u64) -> Answer
    ensures { Tells (judged (record { holds = holds; word = word })) 0 result.v result.word }
{
    Answer {
        v: u8::from(holds),
        word,
    }
}

fn ask(session: Session, net: &mut [u64], under: &mut [u32], over: &mut [u32]) -> Stepped
    requires { (s : Sheet) × OnNet s net.old session under.old over.old }
    ensures net_unchanged { net.new ≡ net.old }
    ensures searches { (s : Sheet) → OnNet s net.old session under.old over.old → Searches s session under.old over.old (ask_of s (standing_of session)) result.session under.new over.new 0 result.answer.v result.answer.word × PromisedFor s (standing_of session) under.new result.session.kept.under over.new result.session.kept.over }
{
    let entered = session.entered;
    let asked = solver::ask(net, entered.mask, entered.values, under, over, session.kept);
    let answer = tell_verdict(asked.holds, asked.word);
    Stepped {
        session: Session {
            kept: asked.kept,
            ..session
        },
        answer,
    }
}

fn why(session: Session, net: &mut [u64], under: &mut [u32], over: &mut [u32]) -> Stepped
    requires { (s : Sheet) × OnNet s net.old session under.old over.old }
    ensures net_unchanged { net.new ≡ net.old }
    ensures searches { (s : Sheet) → OnNet s net.old session under.old over.old → Searches s session under.old over.old (why_of s (standing_of session)) result.session under.new over.new 0 result.answer.v result.answer.word }
{
    let entered = session.entered;
    let found = solver::why(net, entered.mask, entered.values, under, over, session.kept);
    let answer = tell_verdict(found.holds, found.word);
    Stepped {
        session: Session {
            kept: found.kept,
            ..session
        },
        answer,
    }
}

// A line by its bytes. Where it is refused, the session stays as it is.
pub fn step(
    session: Session,
    bytes: LineBytes,
    net: &mut [u64],
    under: &mut [u32],
    over: &mut [u32],
) -> Result<Stepped, Fault>
    requires { (s : Sheet) × OnNet s net.old session under.old over.old }
    ensures { (net.new ≡ net.old) × ((s : Sheet) → OnNet s net.old session under.old over.old → Step s (free_of net.old) session under.old over.old bytes.k bytes.a bytes.b bytes.c (session_after session result) under.new over.new (fault_number (answer_of result)) (v_told (answer_of result)) (word_told (answer_of result))) }
{
    let line = bytes.line()?;
    causes::accept(session, net::free(&net[..]), line)?;
    match line {
        Line::Enter {
            variable,
            value,
            desk,
        } => Ok(enter(session, variable, value, desk)),
        Line::TakeBack => Ok(take_back(session)),
        Line::Read { place } => Ok(read(session, place)),
        Line::Ask => Ok(ask(session, net, under, over)),
        Line::Why => Ok(why(session, net, under, over)),
    }
}
