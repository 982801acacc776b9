// Whether each atom is quantified once and occurs in a clause. Texts are of any length and there is no room beside them, so that each atom is looked for anew.
ghost use Rattle.std.specs.Prelude.{◌≡◌, ◌≤◌, length, drop};
ghost use Rattle.dimacs.specs.Token.{tokens};
ghost use Rattle.dimacs.specs.Row as Row;

use crate::shape::{number_of, variable_of};
use crate::token;
use crate::token::Token;

// Rows: the problem line, a block's line, a clause's line. They are numbers, and no enum, since `row_after` has an answer for every number.
pub const HEADER: u8 = 0;

pub const BLOCK: u8 = 1;

pub const CLAUSE: u8 = 2;

// The row that the text is in behind a field.
#[tactic(auto, unfolding(crate::specs::Row::row_after))]
pub fn row_after(row: u8, t: Token) -> u8
    ensures { result ≡ Row.row_after row t }
{
    match t {
        Token::Exists | Token::Forall => BLOCK,
        Token::Line => CLAUSE,
        _ => row,
    }
}

// Whether a variable, from 1 on, stands in a row of that kind from a place on.
fn mentions(text: &[u8], from: usize, now_in: u8, kind: u8, v: u32) -> bool
    requires { from ≤ length text.now }
    ensures { result ≡ Row.mentions kind v now_in (tokens (drop from text.now)) }
{
    let mut row = now_in;
    let mut at = from;
    while at < text.len() {
        let taken = token::next(text, at);
        let field = taken.token;
        if row == kind {
            if variable_of(field) == v {
                return true;
            }
        }
        row = row_after(row, field);
        at = taken.end;
    }
    false
}

// Whether an atom stands in no later block, and in a clause.
fn proper_atom(text: &[u8], from: usize, row: u8, v: u32) -> bool
    requires { from ≤ length text.now }
    ensures { result ≡ Row.proper_atom v row (tokens (drop from text.now)) }
{
    !mentions(text, from, row, BLOCK, v) && mentions(text, from, row, CLAUSE, v)
}

// Whether all atoms from a place on are so.
pub fn proper_atoms(text: &[u8], from: usize) -> bool
    requires { from ≤ length text.now }
    ensures { result ≡ Row.proper_atoms Row.header (tokens (drop from text.now)) }
{
    let mut row = HEADER;
    let mut at = from;
    while at < text.len() {
        let taken = token::next(text, at);
        let field = taken.token;
        let v = number_of(field);
        let before = row;
        row = row_after(row, field);
        at = taken.end;
        if before == BLOCK {
            if v != 0 {
                if !proper_atom(text, at, row, v) {
                    return false;
                }
            }
        }
    }
    true
}
