// The bytes of an answer: its number, V, and a word of four bytes or of eight, highest first.
ghost use Rattle.std.specs.Prelude.{◌≡◌, ◌∷◌, ◌+◌, ◌<◌, ◌≤◌, length};
ghost use Rattle.form.specs.Form.{answers_in, answer_start};
ghost use Rattle.model.specs.Model.{answer_bytes};
ghost use Rattle.sheet.specs.Told.{fault_number};
ghost use Rattle.session.specs.Line.{v_told, word_told};
ghost use Rattle.certificate.specs.Written.{written};

use form::Form;
use session::Answer;
use sheet::refusal::Fault;

// Writes an answer by its parts, from the place on.
fn write_parts(answers: &mut [u8], at: usize, number: u8, v: u8, word: &[u8])
    requires { (at + 2 + length word.now ≤ length answers.old) }
    ensures { answers.new ≡ written answers.old at (number ∷ v ∷ word.now) }
{
    answers[at] = number;
    answers[at + 1] = v;
    answers[at + 2..at + 2 + word.len()].copy_from_slice(word);
}

// Writes an answer's number, V and word at the place of line i: the narrow form has room for the word's four lowest bytes.
fn write_form(answers: &mut [u8], form: Form, i: usize, number: u8, v: u8, word: u64)
    requires { i < answers_in form (length answers.old) }
    ensures { answers.new ≡ written answers.old (answer_start form i) (answer_bytes form (record { number = number; v = v; word = word })) }
{
    let bytes = word.to_be_bytes();
    match form {
        Form::Narrow => write_parts(answers, i * 6, number, v, &bytes[4..]),
        Form::Wide => write_parts(answers, i * 10, number, v, &bytes),
    }
}

// Writes the answer of line i at its place. A refusal has its number alone.
pub fn write_at(answers: &mut [u8], form: Form, i: usize, answer: Result<Answer, Fault>)
    requires { i < answers_in form (length answers.old) }
    ensures { answers.new ≡ written answers.old (answer_start form i) (answer_bytes form (record { number = fault_number answer; v = v_told answer; word = word_told answer })) }
{
    match answer {
        Ok(told) => write_form(answers, form, i, 0, told.v, told.word),
        Err(fault) => write_form(answers, form, i, fault.number(), 0, 0),
    }
}
