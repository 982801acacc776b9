// Why a line is refused where it is one of the five kinds: causes 13 to 17 and 24 in their order.
ghost use Rattle.std.specs.Prelude.{◌≡◌, cond, eqb, leb};
ghost use Rattle.words.specs.Word.{bit};
ghost use Rattle.sheet.specs.Refusal as Number;
ghost use Rattle.sheet.specs.Told.{fault_number};
ghost use Rattle.model.specs.Model.{Meaning};
ghost use Rattle.session.specs.Sound.{standing_of, Shaped};
ghost use Rattle.session.specs.Line.{refusal_of};
ghost use Rattle.model.specs.Causes.{Opens, enter_cause};

use crate::Session;
use crate::script::Line;
use sheet::refusal::Fault;
use words::Word;

// The desks that may enter are 0 to this one.
const LAST_DESK: u8 = 7;

// Whether the word has the variable; one past the last place it has not.
fn has_variable(word: u64, variable: u8) -> bool
    ensures { result ≡ bit word variable }
{
    if variable < 64 {
        return word.has(variable);
    }
    false
}

// Whether the variable may be entered at the value, by the desk: free are the variables that may, mask those that are.
#[tactic(auto, unfolding(model::specs::Causes::enter_cause))]
fn accept_enter(free: u64, mask: u64, variable: u8, value: u8, desk: u8) -> Result<(), Fault>
    ensures { fault_number result ≡ enter_cause free mask variable value desk }
{
    if !has_variable(free, variable) {
        return Err(Fault::EnterNotFree);
    }
    if value > 1 {
        return Err(Fault::EnterValue);
    }
    if desk > LAST_DESK {
        return Err(Fault::EnterDesk);
    }
    if has_variable(mask, variable) {
        return Err(Fault::EnteredTwice);
    }
    Ok(())
}

// Whether there is a latest entry to take back, where so many stand.
fn accept_take_back(standing: usize) -> Result<(), Fault>
    ensures { fault_number result ≡ cond (eqb standing 0) Number.nothing_entered 0 }
{
    if standing == 0 {
        return Err(Fault::NothingEntered);
    }
    Ok(())
}

// Whether an entry is at the place, where so many stand.
fn accept_read(standing: usize, place: u8) -> Result<(), Fault>
    ensures { fault_number result ≡ cond (leb standing place) Number.no_entry_there 0 }
{
    if standing <= usize::from(place) {
        return Err(Fault::NoEntryThere);
    }
    Ok(())
}

// Whether the session takes the line; free are the variables that may be entered.
pub fn accept(session: Session, free: u64, line: Line) -> Result<(), Fault>
    requires { Shaped session }
    ensures { (m : Meaning) → Opens m free → fault_number result ≡ refusal_of m (standing_of session) line }
{
    match line {
        Line::Enter {
            variable,
            value,
            desk,
        } => accept_enter(free, session.entered.mask, variable, value, desk),
        Line::TakeBack => accept_take_back(session.len),
        Line::Read { place } => accept_read(session.len, place),
        Line::Ask | Line::Why => Ok(()),
    }
}
