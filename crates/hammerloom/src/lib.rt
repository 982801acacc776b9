// A whole run with tables of its own, narrow or wide: what the two entries for a host program in C do, each a function of its name here.
#![tactic(auto)]

ghost use Rattle.std.specs.Prelude.{◌≡◌, ◌≤◌};
ghost use Rattle.sheet.specs.Fields.{sheet_of, narrow, wide};
ghost use Rattle.sheet.specs.Told.{refused_number, refused_place};
ghost use Rattle.hammerloom.specs.Host.{result_of, Host};

use form::Form;
use records::Counts;
use sheet::refusal::Refused;

// Runs a script over a narrow sheet, with two tables of 500 records of its own. It returns 256 times the refusal plus the place, 0 if accepted.
pub fn hammerloom_run(sheet: &[u8], script: &[u8], answers: &mut [u8]) -> u32
    ensures { Host (narrow sheet.now) script.now answers.old answers.new result }
{
    run_with::<1500>(sheet, Form::Narrow, script, answers)
}

// The same over a wide sheet. It returns 65,536 times the refusal plus the place.
pub fn hammerloom_run_wide(sheet: &[u8], script: &[u8], answers: &mut [u8]) -> u32
    ensures { Host (wide sheet.now) script.now answers.old answers.new result }
{
    run_with::<2500>(sheet, Form::Wide, script, answers)
}

// A run with two tables of N numbers.
fn run_with<const N: usize>(sheet: &[u8], form: Form, script: &[u8], answers: &mut [u8]) -> u32
    requires { N ≤ 2500 }
    ensures { Host (sheet_of form sheet.now) script.now answers.old answers.new result }
{
    let mut under = [0u32; N];
    let mut over = [0u32; N];
    let ran = run::run(sheet, form, script, answers, &mut under, &mut over);
    told(form, ran)
}

// A refusal and its place in one number, 0 for none.
fn told(form: Form, ran: Result<Counts, Refused>) -> u32
    ensures { result ≡ result_of form (refused_number ran) (refused_place ran) }
{
    let Err(refused) = ran else {
        return 0;
    };
    let number = u32::from(refused.fault.number());
    let place = u32::from(refused.place);
    match form {
        Form::Narrow => 256 * number + place,
        Form::Wide => 65536 * number + place,
    }
}
