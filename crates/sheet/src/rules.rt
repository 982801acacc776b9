// Document 01's causes to refuse a sheet, and document 02's for gauges, each as a test of its length or of one frame.
ghost use Rattle.std.specs.Prelude.{◌≡◌, ◌<◌};
ghost use Rattle.form.specs.Form as Sizes;
ghost use Rattle.sheet.specs.Cause.{first};
ghost use Rattle.sheet.specs.Fields.{sheet_of};
ghost use Rattle.sheet.specs.Rules as Rules;
ghost use Rattle.sheet.specs.Rules.{length_causes, field_causes, causes_of, some_late, names};
ghost use Rattle.sheet.specs.Check.{past_by, variables_fault};
ghost use Rattle.sheet.specs.Told.{fault_number};

use crate::layout::fields_at;
use crate::ranged::Ranged;
use crate::refusal::Fault;
use crate::{Fields, Kind, kind_of};
use form::Form;

// Kinds are the codes up to this one.
const LAST_KIND: u8 = 7;

// Refused by the cause that the length of a sheet gives.
#[tactic(auto, unfolding(crate::specs::Cause::first, crate::specs::Rules::length_causes))]
pub fn check_size(form: Form, len: usize) -> Result<(), Fault>
    ensures { fault_number result ≡ (first (length_causes form len)).number }
{
    if len == 0 || form::rest(form, len) != 0 {
        return Err(Fault::NotWhole);
    }
    if form::frames(form, len) > form::most_frames(form) {
        return Err(Fault::SheetTooLong);
    }
    Ok(())
}

// How many of the fields A B C a kind uses.
#[tactic(auto, unfolding(crate::specs::Rules::used))]
fn used(kind: Kind) -> u8
    ensures { result ≡ Rules.used kind }
{
    match kind {
        Kind::Never => 0,
        Kind::Input(_) | Kind::Not(_) | Kind::Gauge(_) => 1,
        Kind::And(_, _) | Kind::Or(_, _) => 2,
        Kind::Exists(_, _, _) | Kind::Forall(_, _, _) => 3,
    }
}

// Whether the field at a place of A B C is behind the first n, and not 0.
fn spare_at(n: u8, place: u8, field: u16) -> bool
    ensures { result ≡ Rules.spare_at n place field }
{
    n <= place && field != 0
}

// Whether one of the fields behind the first n is not 0.
#[tactic(auto, unfolding(crate::specs::Rules::spare_set))]
pub fn spare_set(n: u8, a: u16, b: u16, c: u16) -> bool
    ensures { result ≡ Rules.spare_set n a b c }
{
    spare_at(n, 0, a) || spare_at(n, 1, b) || spare_at(n, 2, c)
}

// Whether a frame of that number names one that is not earlier.
#[tactic(auto, unfolding(crate::specs::Rules::some_late, crate::specs::Rules::names))]
fn some_late(kind: Kind, number: u16) -> bool
    ensures { result ≡ some_late number (names kind) }
{
    match kind {
        Kind::Never | Kind::Input(_) | Kind::Gauge(_) => false,
        Kind::And(x, y) | Kind::Or(x, y) => number <= x || number <= y,
        Kind::Not(x) | Kind::Exists(x, _, _) | Kind::Forall(x, _, _) => number <= x,
    }
}

// The bound of a form's variables, as wide as a sum of two fields.
fn bound_of(form: Form) -> u32
    ensures { result ≡ Sizes.variables form }
{
    u32::from(form::variables(form))
}

#[tactic(auto, unfolding(crate::specs::Rules::bad_range))]
fn bad_range(form: Form, b: u16, c: u16) -> bool
    ensures { result ≡ Rules.bad_range form b c }
{
    let bound = bound_of(form);
    let count = u32::from(c);
    let end = u32::from(b) + count;
    count == 0 || count > bound || end > bound
}

fn bad_input(form: Form, x: u16) -> bool
    ensures { result ≡ Rules.bad_input form x }
{
    u32::from(x) >= bound_of(form)
}

#[tactic(auto, unfolding(crate::specs::Rules::bad_variables))]
fn bad_variables(form: Form, kind: Kind) -> bool
    ensures { result ≡ Rules.bad_variables form kind }
{
    match kind {
        Kind::Input(x) | Kind::Gauge(x) => bad_input(form, x),
        Kind::Exists(_, b, c) | Kind::Forall(_, b, c) => bad_range(form, b, c),
        Kind::Never | Kind::Not(_) | Kind::And(_, _) | Kind::Or(_, _) => false,
    }
}

// The variables that earlier frames bind, name by an INPUT, and name as gauges.
#[derive(Clone, Copy, Default)]
pub struct Seen {
    pub bound: u64,
    pub inputs: u64,
    pub gauges: u64,
}

// Refused by the first of the causes 9, 22, 23 and 10 that holds at a frame, in this order.
#[tactic(auto, unfolding(crate::specs::Check::variables_fault))]
fn check_variables(form: Form, kind: Kind, seen: Seen) -> Result<(), Fault>
    ensures { fault_number result ≡ variables_fault form kind (past_by seen) }
{
    if bad_variables(form, kind) {
        return Err(Fault::RangeBroken);
    }
    let ranged = Ranged { form, kind };
    let mixed = ranged.named_both(seen);
    let gauge = ranged.binds_gauge(seen);
    let again = ranged.binds_again(seen);
    if mixed {
        return Err(Fault::InputAndGauge);
    }
    if gauge {
        return Err(Fault::GaugeBound);
    }
    if again {
        return Err(Fault::BoundTwice);
    }
    Ok(())
}

// Refused by the first cause that the frame's fields give: 6 to 8 before those of its variables.
#[tactic(auto, unfolding(crate::specs::Cause::first, crate::specs::Rules::field_causes))]
fn check_fields(form: Form, f: Fields, number: u16, seen: Seen) -> Result<(), Fault>
    ensures { fault_number result ≡ (first (field_causes form f number (past_by seen))).number }
{
    if f.k > LAST_KIND {
        return Err(Fault::KindUnknown);
    }
    let kind = kind_of(f);
    let spare = spare_set(used(kind), f.a, f.b, f.c);
    let late = some_late(kind, number);
    if spare {
        return Err(Fault::SpareUsed);
    }
    if late {
        return Err(Fault::NotEarlier);
    }
    check_variables(form, kind, seen)
}

// The same for the frame of that number.
pub fn check_frame(sheet: &[u8], form: Form, number: usize, seen: Seen) -> Result<(), Fault>
    requires { number < 3000 }
    ensures { fault_number result ≡ (first (causes_of (sheet_of form sheet.now) number (past_by seen))).number }
{
    let f = fields_at(sheet, form, number);
    check_fields(form, f, number as u16, seen)
}
