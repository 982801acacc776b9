// The frames of clauses: chains of ORs, and the chain of ANDs over their ends.
ghost use Rattle.std.specs.Prelude.{◌≡◌, ◌+◌, ◌-◌, ◌*◌, ◌≤◌, length};
ghost use Rattle.std.proofs.lemmas.List.Edits.{sets};
ghost use Rattle.words.specs.Word.{bit};
ghost use Rattle.prenex.specs.Kinds.{conjunction_kinds, frame_by, sheet_bytes};
ghost use Rattle.prenex.specs.Code.{Codes, clauses_of, all_opposed};
ghost use Rattle.prenex.specs.Writing.{Linked, Members, Clauses};

use crate::frame::SHEET_BYTES;
use crate::stores::store;
use crate::{frame, literal};
use sheet::Kind;
use words::Word;

// How many frames there are, and how many clauses ended.
#[derive(Clone, Copy)]
pub struct Chained {
    pub frames: u16,
    pub ends: usize,
}

// Where the chain of a clause has come to, and how many frames there are.
#[derive(Clone, Copy)]
struct Link {
    at: u16,
    frames: u16,
}

// A literal more: the first of a clause starts its chain, each other one is joined to it.
fn join_literal(first: bool, at: u16, member: u16, n: u16, out: &mut [u8; SHEET_BYTES]) -> Link
    requires { (member ≤ 64) × (at ≤ 64 + (n - 64)) × (n ≤ 500) }
    ensures { Linked first at member n out.old result out.new }
{
    if first {
        return Link {
            at: member,
            frames: n,
        };
    }
    frame::put(out, n, Kind::Or(at, member));
    Link {
        at: n,
        frames: n + 1,
    }
}

// Writes the chains of the clauses from frame `literals` on, and the frames that they end with into `ends`.
pub fn write_clauses(
    codes: &[u8],
    all: u32,
    negated: u32,
    literals: u16,
    out: &mut [u8; SHEET_BYTES],
    ends: &mut [u16],
) -> Chained
    requires { Codes codes.now × (length codes.now ≤ 400) × (literals ≤ 64) }
    ensures { Clauses codes.now (frame_by (bit all) (bit negated)) literals out.old ends.old result out.new ends.new }
{
    let mut n = literals;
    let mut k: usize = 0;
    let mut at: u16 = 0;
    let mut first = true;
    for &code in codes {
        if code == 0 {
            if !first {
                store(ends, k, at);
                k += 1;
            }
            first = true;
        } else {
            let linked = join_literal(
                first,
                at,
                literal::literal_frame(all, negated, code),
                n,
                out,
            );
            at = linked.at;
            n = linked.frames;
            first = false;
        }
    }
    Chained { frames: n, ends: k }
}

// Writes the chain over frames from frame n on, and says how many frames there are then.
pub fn write_conjunction(members: &[u16], n: u16, out: &mut [u8; SHEET_BYTES]) -> u16
    requires { (length members.now ≤ 400) × (n ≤ 464) × Members n members.now }
    ensures { (result ≡ n + length (conjunction_kinds members.now n)) × (result ≤ n + length members.now) × (out.new ≡ sets out.old (n * 4) (sheet_bytes (conjunction_kinds members.now n))) }
{
    let mut to = n;
    let mut at: u16 = 0;
    let mut first = true;
    for &member in members {
        if first {
            at = member;
            first = false;
        } else {
            frame::put(out, to, Kind::And(at, member));
            at = to;
            to += 1;
        }
    }
    to
}

// Whether each clause has a literal and its opposite, and so is always true.
pub fn all_opposed(codes: &[u8]) -> bool
    requires { Codes codes.now }
    ensures { result ≡ all_opposed (clauses_of codes.now) }
{
    let mut positive: u32 = 0;
    let mut negative: u32 = 0;
    for &code in codes {
        if code == 0 {
            if positive & negative == 0 {
                return false;
            }
            positive = 0;
            negative = 0;
        } else {
            let one = u32::one(literal::variable(code));
            if literal::negative(code) {
                negative |= one;
            } else {
                positive |= one;
            }
        }
    }
    true
}
