// What the program prints for a text of either form: the lines of the answers, or one line for a refusal.
#![tactic(auto)]

ghost use Rattle.std.specs.Prelude.{◌<◌, ◌≤◌};
ghost use Rattle.form.specs.Form as Sizes;
ghost use Rattle.sheet.specs.Fields.{sheet_of};
ghost use Rattle.sheet.specs.Told.{number_of};
ghost use Rattle.certificate.specs.Run.{most_lines};
ghost use Rattle.response.specs.Printed.{all_lines, refusal_line, printed_run, printed, Prints};

use form::Form;
use sheet::refusal::Refused;

// The lengths of arrays, which must be constants, for each form: room for the answers of the longest script, of six bytes each, or of ten.
const ANSWERS: usize = 1000 * 6;

const WIDE_ANSWERS: usize = 1000 * 10;

// 500 records of three numbers, or of five.
const TABLE: usize = 500 * 3;

const WIDE_TABLE: usize = 500 * 5;

// Writes the lines of all answers, or nothing where they have no room.
fn print_answers(answers: &[u8], form: Form, out: &mut [u8]) -> usize
    ensures { Prints (all_lines form answers.now) out.old result out.new }
{
    let size = form::answer_bytes(form);
    if out.len() / (2 * size + 1) < answers.len() / size {
        return 0;
    }
    text::answer_lines(answers, form, out)
}

// Writes the line of a refusal, which has as many bytes as an answer.
fn print_refusal(refused: Refused, form: Form, out: &mut [u8]) -> usize
    requires { refused.place < Sizes.most_frames form }
    ensures { Prints (refusal_line form (number_of refused.fault) refused.place) out.old result out.new }
{
    let number = refused.fault.number();
    let [high, low] = refused.place.to_be_bytes();
    match form {
        Form::Narrow => print_answers(&[number, low, 0, 0, 0, 0], form, out),
        Form::Wide => print_answers(&[number, high, low, 0, 0, 0, 0, 0, 0, 0], form, out),
    }
}

// Runs a script over a sheet and writes its answers, or its refusal, with room for so many bytes of answers and so many numbers in a table.
fn print_run_sized<const ROOM: usize, const NUMBERS: usize>(
    sheet: &[u8],
    form: Form,
    script: &[u8],
    out: &mut [u8],
) -> usize
    requires { (Sizes.answer_start form most_lines ≤ ROOM) × (ROOM ≤ 10000) × (NUMBERS ≤ 2500) }
    ensures { Prints (printed_run (sheet_of form sheet.now) script.now) out.old result out.new }
{
    let mut answers = [0u8; ROOM];
    let mut under = [0u32; NUMBERS];
    let mut over = [0u32; NUMBERS];
    match run::run(sheet, form, script, &mut answers, &mut under, &mut over) {
        Err(refused) => print_refusal(refused, form, out),
        Ok(_) => {
            let end = script.len() / 4 * form::answer_bytes(form);
            print_answers(&answers[..end], form, out)
        }
    }
}

// The same with room for the longest script of the form.
fn print_run(sheet: &[u8], form: Form, script: &[u8], out: &mut [u8]) -> usize
    ensures { Prints (printed_run (sheet_of form sheet.now) script.now) out.old result out.new }
{
    match form {
        Form::Narrow => print_run_sized::<ANSWERS, TABLE>(sheet, form, script, out),
        Form::Wide => print_run_sized::<WIDE_ANSWERS, WIDE_TABLE>(sheet, form, script, out),
    }
}

// Writes what is printed for a text, and says how many bytes that are; nothing where it has no room. 21,000 bytes are always enough.
pub fn respond(text: &[u8], out: &mut [u8]) -> usize
    ensures { Prints (printed text.now) out.old result out.new }
{
    let mut sheet = [0u8; text::SHEET_BYTES];
    let mut script = [0u8; text::SCRIPT_BYTES];
    match text::read(text, &mut sheet, &mut script) {
        Err(unread) => print_refusal(Refused::from(unread.fault), unread.form, out),
        Ok(parsed) => print_run(
            &sheet[..parsed.sheet],
            parsed.form,
            &script[..parsed.script],
            out,
        ),
    }
}
