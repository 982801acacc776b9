// The frames of literals: an INPUT for each variable that occurs, and a NOT for each that occurs negated, both ascending.
ghost use Rattle.std.specs.Prelude.{◌≡◌, map, ◌+◌, ◌*◌, ◌≤◌, ◌<◌};
ghost use Rattle.std.proofs.lemmas.List.Edits.{sets};
ghost use Rattle.words.specs.Word.{bit};
ghost use Rattle.sheet.specs.declared.Kind.TheVariants.{Input, Not};
ghost use Rattle.prenex.specs.Question.{occurs, negated};
ghost use Rattle.prenex.specs.Kinds.{having, count, frame_by, sheet_bytes};
ghost use Rattle.prenex.specs.Code.{Codes, literal_of, clauses_of};
ghost use Rattle.prenex.specs.Writing.{With};

use crate::frame;
use crate::frame::SHEET_BYTES;
use sheet::Kind;
use words::Word;

// Variables are 0 to 31.
pub const VARIABLES: u8 = 32;

// The variables that occur, and those that occur negated.
#[derive(Clone, Copy)]
pub struct Occurring {
    pub all: u32,
    pub negated: u32,
}

// The variable of a literal's code, and whether it is negated.
pub fn variable(code: u8) -> u8
    requires { 0 < code }
    ensures { result ≡ (literal_of code).variable }
{
    (code - 1) / 2
}

pub fn negative(code: u8) -> bool
    requires { 0 < code }
    ensures { result ≡ (literal_of code).negative }
{
    (code - 1) % 2 == 1
}

// With one literal more.
fn with_literal(found: Occurring, code: u8) -> Occurring
    requires { (0 < code) × (code ≤ 64) }
    ensures { With found code result }
{
    let one = u32::one(variable(code));
    if negative(code) {
        return Occurring {
            all: found.all | one,
            negated: found.negated | one,
        };
    }
    Occurring {
        all: found.all | one,
        ..found
    }
}

// Which variables occur in clauses.
pub fn find_occurring(codes: &[u8]) -> Occurring
    requires { Codes codes.now }
    ensures { (bit result.all ≡ occurs (clauses_of codes.now)) × (bit result.negated ≡ negated (clauses_of codes.now)) }
{
    let mut found = Occurring { all: 0, negated: 0 };
    for &code in codes {
        if code != 0 {
            found = with_literal(found, code);
        }
    }
    found
}

// How many places of the word are below x.
pub fn rank(word: u32, x: u8) -> u16
    requires { x ≤ 32 }
    ensures { (result ≡ count (bit word) 0 x) × (result ≤ x) }
{
    let mut n: u16 = 0;
    for y in 0..x {
        if word.has(y) {
            n += 1;
        }
    }
    n
}

// Writes the inputs from frame 0 on, and says how many.
pub fn write_inputs(all: u32, out: &mut [u8; SHEET_BYTES]) -> u16
    ensures { (result ≡ count (bit all) 0 32) × (result ≤ 32) × (out.new ≡ sets out.old 0 (sheet_bytes (map Input (having (bit all) 0 32)))) }
{
    let mut n: u16 = 0;
    for x in 0..VARIABLES {
        if all.has(x) {
            frame::put(out, n, Kind::Input(u16::from(x)));
            n += 1;
        }
    }
    n
}

// Writes the negations behind the inputs, and says how many frames there are then.
pub fn write_negations(all: u32, negated: u32, inputs: u16, out: &mut [u8; SHEET_BYTES]) -> u16
    requires { inputs ≤ 32 }
    ensures { (result ≡ inputs + count (bit negated) 0 32) × (result ≤ inputs + 32) × (out.new ≡ sets out.old (inputs * 4) (sheet_bytes (map (λ x. Not (count (bit all) 0 x)) (having (bit negated) 0 32)))) }
{
    let mut n = inputs;
    for x in 0..VARIABLES {
        if negated.has(x) {
            frame::put(out, n, Kind::Not(rank(all, x)));
            n += 1;
        }
    }
    n
}

// The frame of a literal.
pub fn literal_frame(all: u32, negated: u32, code: u8) -> u16
    requires { (0 < code) × (code ≤ 64) }
    ensures { (result ≡ frame_by (bit all) (bit negated) (literal_of code)) × (result ≤ 64) }
{
    let x = variable(code);
    if negative(code) {
        return rank(all, VARIABLES) + rank(negated, x);
    }
    rank(all, x)
}
