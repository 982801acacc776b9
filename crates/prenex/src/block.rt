// The frames of the prefix: for each block, the innermost first, a quantifier for each longest run of consecutive variables, ascending.
ghost use Rattle.std.specs.Prelude.{◌≡◌, ◌+◌, ◌*◌, ◌≤◌, length};
ghost use Rattle.std.proofs.lemmas.List.Edits.{sets};
ghost use Rattle.words.specs.Word.{bit};
ghost use Rattle.prenex.specs.Kinds.{ended, quantifier, runs, run_kinds, sheet_bytes};
ghost use Rattle.prenex.specs.Code.{word_kinds};

use crate::frame;
use crate::frame::SHEET_BYTES;
use crate::literal::VARIABLES;
use sheet::Kind;
use words::Word;

fn quantifier(exists: bool, a: u16, first: u16, size: u16) -> Kind
    ensures { result ≡ quantifier exists a first size }
{
    if exists {
        return Kind::Exists(a, first, size);
    }
    Kind::Forall(a, first, size)
}

// Writes the quantifier of the c variables before x over the frame before n, if there are any, and says how many frames there are then.
fn write_run(exists: bool, x: u8, c: u8, n: u16, out: &mut [u8; SHEET_BYTES]) -> u16
    requires { (c ≤ x) × (x ≤ 32) × (1 ≤ n) × (n ≤ 10000) }
    ensures { (result ≡ n + length (ended x c)) × (result ≤ n + 1) × (out.new ≡ sets out.old (n * 4) (sheet_bytes (run_kinds exists (ended x c) n))) }
{
    if c == 0 {
        return n;
    }
    frame::put(
        out,
        n,
        quantifier(exists, n - 1, u16::from(x - c), u16::from(c)),
    );
    n + 1
}

// Writes the quantifiers of a block.
fn write_runs(exists: bool, word: u32, n: u16, out: &mut [u8; SHEET_BYTES]) -> u16
    requires { (1 ≤ n) × (n ≤ 9000) }
    ensures { (result ≡ n + length (runs (bit word))) × (result ≤ n + 33) × (out.new ≡ sets out.old (n * 4) (sheet_bytes (run_kinds exists (runs (bit word)) n))) }
{
    let mut to = n;
    let mut c: u8 = 0;
    for x in 0..VARIABLES {
        if word.has(x) {
            c += 1;
        } else {
            to = write_run(exists, x, c, to, out);
            c = 0;
        }
    }
    write_run(exists, VARIABLES, c, to, out)
}

// Writes the quantifiers of all blocks from frame n on, and says how many frames there are then.
pub fn write(words: &[u32], n: u16, out: &mut [u8; SHEET_BYTES]) -> u16
    requires { (1 ≤ n) × (n ≤ 864) × (length words.now ≤ 200) }
    ensures { (result ≡ n + length (word_kinds words.now n)) × (out.new ≡ sets out.old (n * 4) (sheet_bytes (word_kinds words.now n))) }
{
    let mut to = n;
    let mut exists = true;
    for word in words.iter().rev() {
        to = write_runs(exists, *word, to, out);
        exists = !exists;
    }
    to
}
