// The frames of a question that is well formed, and whether its matrix can be true and can be false.
ghost use Rattle.std.specs.Prelude.{◌≡◌, ◌*◌, ◌≤◌, length, drop};
ghost use Rattle.prenex.specs.Question.{Question, Proper};
ghost use Rattle.prenex.specs.Code.{clauses_of};
ghost use Rattle.dimacs.specs.Token.{tokens};
ghost use Rattle.dimacs.specs.Page.{page};
ghost use Rattle.qdimacs.specs.Reading.{Asked, Arranged, Arrays, Builds};
ghost use Rattle.qdimacs.specs.MatrixAsked.{Matrix, Judged};

use dimacs::decode;
use form::Form;
use prenex::SHEET_BYTES;
use sheet::Accepted;
use sheet::refusal::Fault;

// Whether the matrix, in codes and in frames, is neither always true nor always false.
fn contingent(codes: &[u8], frames: &[u8]) -> bool
    requires { Matrix codes.now frames.now }
    ensures { Judged (clauses_of codes.now) result }
{
    if prenex::all_opposed(codes) {
        return false;
    }
    let found = prenex::find_occurring(codes);
    let mut under = [0u32; 3];
    let mut over = [0u32; 3];
    let mut net = [0u64; 473];
    let accepted = Accepted {
        free: u64::from(found.all),
        gauges: 0,
    };
    phase::load(frames, Form::Narrow, accepted, &mut net);
    let none = records::Counts { under: 0, over: 0 };
    let answer = solver::ask(&mut net, 0, 0, &mut under, &mut over, none);
    answer.holds
}

// The bytes that a number of frames takes.
fn size_of(frames: u16) -> usize
    ensures { result ≡ frames * 4 }
{
    usize::from(frames) * 4
}

// The frames of a question that stands in arrays, and how many bytes they take.
fn assemble(codes: &[u8], words: &[u32], frames: &mut [u8; SHEET_BYTES]) -> Result<usize, Fault>
    requires { Arrays codes.now words.now }
    ensures { (q : Question) → Arranged q codes.now words.now → Builds q frames.old result frames.new }
{
    let matrix = prenex::write_matrix(codes, frames);
    let all = prenex::write_blocks(words, matrix, frames);
    if all > 200 {
        return Err(Fault::QuestionTooLarge);
    }
    if !contingent(codes, &frames[..size_of(matrix)]) {
        return Err(Fault::QuestionBroken);
    }
    Ok(size_of(all))
}

// The frames of the question at a place of the text, and how many bytes they take.
pub fn build(text: &[u8], at: usize, frames: &mut [u8; SHEET_BYTES]) -> Result<usize, Fault>
    requires { (at ≤ length text.now) × Asked text.now at }
    ensures { (q : Question) → tokens (drop at text.now) ≡ page q → Proper q → q.variables ≤ 32 → Builds q frames.old result frames.new }
{
    let mut codes = [0u8; prenex::MOST_CODES];
    let n = decode::clauses(text, at, &mut codes);
    if n > prenex::MOST_CODES {
        return Err(Fault::QuestionTooLarge);
    }
    let mut words = [0u32; prenex::MOST_BLOCKS];
    let m = decode::blocks(text, at, &mut words);
    if m > prenex::MOST_BLOCKS {
        return Err(Fault::QuestionTooLarge);
    }
    assemble(&codes[..n], &words[..m], frames)
}
