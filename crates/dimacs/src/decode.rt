// A question's fields as arrays: the codes of its clauses, and the words of its blocks (prenex).
ghost use Rattle.std.specs.Prelude.{◌≡◌, ◌≤◌, length, drop};
ghost use Rattle.std.proofs.lemmas.List.Edits.{sets};
ghost use Rattle.dimacs.specs.Token.{tokens};
ghost use Rattle.dimacs.specs.Row as Row;

use crate::atoms::{BLOCK, CLAUSE, HEADER, row_after};
use crate::shape::{in_range, is_line, number_of};
use crate::token;
use crate::token::Token;
use prenex::store;
use words::Word;

// The code of a literal, and 0 for a line's 0; None for a field that says none.
#[tactic(auto, unfolding(crate::specs::Row::code_of_field))]
fn code_of(t: Token) -> Option<u8>
    ensures { result ≡ Row.code_of_field t }
{
    match t {
        Token::Number(n) => {
            if !in_range(32, n) {
                return Some(0);
            }
            Some((2 * n - 1) as u8)
        }
        Token::Negative(n) => {
            if !in_range(32, n) {
                return Some(0);
            }
            Some((2 * n) as u8)
        }
        Token::Other => Some(0),
        _ => None,
    }
}

// The word with an atom more, from 1 on.
fn with_atom(word: u32, n: u32) -> u32
    ensures { result ≡ Row.with_atom word n }
{
    if !in_range(32, n) {
        return word;
    }
    word | u32::one((n - 1) as u8)
}

// The codes of the clauses, as far as there is room; says how many there are.
pub fn clauses(text: &[u8], from: usize, codes: &mut [u8]) -> usize
    requires { from ≤ length text.now }
    ensures { (result ≡ length (Row.codes_from Row.header (tokens (drop from text.now)))) × (codes.new ≡ sets codes.old 0 (Row.codes_from Row.header (tokens (drop from text.now)))) }
{
    let mut n: usize = 0;
    let mut row = HEADER;
    let mut at = from;
    while at < text.len() {
        let taken = token::next(text, at);
        let field = taken.token;
        if row == CLAUSE {
            if let Some(code) = code_of(field) {
                store(codes, n, code);
                n += 1;
            }
        }
        row = row_after(row, field);
        at = taken.end;
    }
    n
}

// The words of the blocks, as far as there is room; says how many there are.
pub fn blocks(text: &[u8], from: usize, words: &mut [u32]) -> usize
    requires { from ≤ length text.now }
    ensures { (result ≡ length (Row.words_from Row.header 0 (tokens (drop from text.now)))) × (words.new ≡ sets words.old 0 (Row.words_from Row.header 0 (tokens (drop from text.now)))) }
{
    let mut n: usize = 0;
    let mut word: u32 = 0;
    let mut row = HEADER;
    let mut at = from;
    while at < text.len() {
        let taken = token::next(text, at);
        let field = taken.token;
        if row == BLOCK {
            if is_line(field) {
                store(words, n, word);
                n += 1;
                word = 0;
            } else {
                word = with_atom(word, number_of(field));
            }
        }
        row = row_after(row, field);
        at = taken.end;
    }
    n
}
