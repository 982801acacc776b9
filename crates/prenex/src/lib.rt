// Prenex questions in clauses, and the frames of a sheet for them. A question stands in two arrays: the clauses as codes of literals,
// with 0 behind each clause, and the blocks of the prefix as words, outermost first. A code is a byte, and the end of a clause 0, as `Codes` and
// `clauses_of` have them.
#![tactic(auto)]

mod block;
mod clause;
mod frame;
mod literal;
mod stores;

ghost use Rattle.std.specs.Prelude.{◌≡◌, ◌+◌, ◌*◌, ◌≤◌, length};
ghost use Rattle.std.proofs.lemmas.List.Edits.{sets};
ghost use Rattle.prenex.specs.Kinds.{matrix_kinds, sheet_bytes};
ghost use Rattle.prenex.specs.Code.{Codes, clauses_of, word_kinds};

pub use clause::all_opposed;
pub use frame::SHEET_BYTES;
pub use literal::{Occurring, find_occurring};
pub use stores::store;

// The most codes of an array of clauses, and words of one of blocks.
pub const MOST_CODES: usize = 400;

pub const MOST_BLOCKS: usize = 200;

// Writes the frames of the matrix, and says how many they are. Those past the room are counted and not written.
pub fn write_matrix(codes: &[u8], out: &mut [u8; SHEET_BYTES]) -> u16
    requires { Codes codes.now × (length codes.now ≤ 400) }
    ensures { (result ≡ length (matrix_kinds (clauses_of codes.now))) × (result ≤ 864) × (out.new ≡ sets out.old 0 (sheet_bytes (matrix_kinds (clauses_of codes.now)))) }
{
    let found = find_occurring(codes);
    let inputs = literal::write_inputs(found.all, out);
    let literals = literal::write_negations(found.all, found.negated, inputs, out);
    let mut ends = [0u16; MOST_CODES];
    let clauses = clause::write_clauses(codes, found.all, found.negated, literals, out, &mut ends);
    clause::write_conjunction(&ends[..clauses.ends], clauses.frames, out)
}

// Writes the frames of the quantifiers behind those of the matrix, and says how many frames there are then.
pub fn write_blocks(masks: &[u32], matrix: u16, out: &mut [u8; SHEET_BYTES]) -> u16
    requires { (1 ≤ matrix) × (matrix ≤ 864) × (length masks.now ≤ 200) }
    ensures { (result ≡ matrix + length (word_kinds masks.now matrix)) × (out.new ≡ sets out.old (matrix * 4) (sheet_bytes (word_kinds masks.now matrix))) }
{
    block::write(masks, matrix, out)
}
