// The shape of a text's fields, as a machine that takes one field after the other.
ghost use Rattle.std.specs.Prelude.{◌≡◌, ◌≤◌, length, drop};
ghost use Rattle.dimacs.specs.Token.{tokens};
ghost use Rattle.dimacs.specs.Shape as Machine;

use crate::token;
use crate::token::Token;

// What may come next.
#[derive(Clone, Copy)]
pub enum Phase {
    AtProblem,
    AtFormat,
    AtVariables,
    AtCount,
    AtHeaderEnd,
    // A block or the first clause.
    AtRow,
    AtFirstAtom,
    AtAtom,
    AtBlockEnd,
    AtClause,
    AtLiteral,
    AtClauseEnd,
    Broken,
}

// Kinds of blocks: of e, of a.
const EXISTS: u8 = 1;

const FORALL: u8 = 2;

// The phase, the problem line's variables, how many clauses are left, and the kind of the last block: 0 for none, 1 for e, 2 for a. It is a number, and no
// Option of an enum, since `whole` has an answer for every state, whatever that number is.
#[derive(Clone, Copy)]
pub struct State {
    pub phase: Phase,
    pub variables: u32,
    pub left: u32,
    pub last: u8,
}

// The number of a field that has no sign, 0 for others: an Option would be refused just where 0 is, since 0 is no variable and no count.
#[tactic(auto, unfolding(crate::specs::Shape::number_of))]
pub fn number_of(t: Token) -> u32
    ensures { result ≡ Machine.number_of t }
{
    match t {
        Token::Number(n) => n,
        _ => 0,
    }
}

// The variable of a literal, from 1 on, 0 for others.
#[tactic(auto, unfolding(crate::specs::Shape::variable_of))]
pub fn variable_of(t: Token) -> u32
    ensures { result ≡ Machine.variable_of t }
{
    match t {
        Token::Number(n) | Token::Negative(n) => n,
        _ => 0,
    }
}

#[tactic(auto, unfolding(crate::specs::Shape::is_zero))]
fn is_zero(t: Token) -> bool
    ensures { result ≡ Machine.is_zero t }
{
    matches!(t, Token::Number(0))
}

#[tactic(auto, unfolding(crate::specs::Shape::is_line))]
pub(crate) fn is_line(t: Token) -> bool
    ensures { result ≡ Machine.is_line t }
{
    matches!(t, Token::Line)
}

#[tactic(auto, unfolding(crate::specs::Shape::is_problem))]
fn is_problem(t: Token) -> bool
    ensures { result ≡ Machine.is_problem t }
{
    matches!(t, Token::Problem)
}

#[tactic(auto, unfolding(crate::specs::Shape::is_cnf))]
fn is_cnf(t: Token) -> bool
    ensures { result ≡ Machine.is_cnf t }
{
    matches!(t, Token::Format)
}

// The kind of the block that a field begins.
#[tactic(auto, unfolding(crate::specs::Shape::begun))]
fn begun(t: Token) -> Option<u8>
    ensures { result ≡ Machine.begun t }
{
    match t {
        Token::Exists => Some(EXISTS),
        Token::Forall => Some(FORALL),
        _ => None,
    }
}

#[tactic(auto, using(std::proofs::lemmas::Bool::Decides::nat_tests))]
pub fn in_range(most: u32, n: u32) -> bool
    ensures { result ≡ Machine.in_range most n }
{
    0 < n && n <= most
}

fn into_phase(s: State, p: Phase) -> State
    ensures { result ≡ Machine.into s p }
{
    State { phase: p, ..s }
}

fn expect(s: State, ok: bool, p: Phase) -> State
    ensures { result ≡ Machine.expect s ok p }
{
    into_phase(s, if ok { p } else { Phase::Broken })
}

fn at_variables(s: State, n: u32) -> State
    ensures { result ≡ Machine.at_variables s n }
{
    if n == 0 {
        return into_phase(s, Phase::Broken);
    }
    State {
        phase: Phase::AtCount,
        variables: n,
        ..s
    }
}

fn at_count(s: State, n: u32) -> State
    ensures { result ≡ Machine.at_count s n }
{
    if n == 0 {
        return into_phase(s, Phase::Broken);
    }
    State {
        phase: Phase::AtHeaderEnd,
        left: n,
        ..s
    }
}

fn block_start(s: State, kind: u8) -> State
    ensures { result ≡ Machine.block_start s kind }
{
    if s.last == kind {
        return into_phase(s, Phase::Broken);
    }
    State {
        phase: Phase::AtFirstAtom,
        last: kind,
        ..s
    }
}

fn clause_start(s: State, t: Token) -> State
    ensures { result ≡ Machine.clause_start s t }
{
    if s.left == 0 {
        return into_phase(s, Phase::Broken);
    }
    expect(s, in_range(s.variables, variable_of(t)), Phase::AtLiteral)
}

fn row_start(s: State, t: Token) -> State
    ensures { result ≡ Machine.row_start s t }
{
    if let Some(kind) = begun(t) {
        return block_start(s, kind);
    }
    if s.last == FORALL {
        return into_phase(s, Phase::Broken);
    }
    clause_start(s, t)
}

fn at_atom(s: State, t: Token) -> State
    ensures { result ≡ Machine.at_atom s t }
{
    if is_zero(t) {
        return into_phase(s, Phase::AtBlockEnd);
    }
    expect(s, in_range(s.variables, number_of(t)), Phase::AtAtom)
}

fn at_literal(s: State, t: Token) -> State
    ensures { result ≡ Machine.at_literal s t }
{
    if is_zero(t) {
        return into_phase(s, Phase::AtClauseEnd);
    }
    expect(s, in_range(s.variables, variable_of(t)), Phase::AtLiteral)
}

fn at_clause_end(s: State, ended: bool) -> State
    ensures { result ≡ Machine.at_clause_end s ended }
{
    if s.left == 0 || !ended {
        return into_phase(s, Phase::Broken);
    }
    State {
        phase: Phase::AtClause,
        left: s.left - 1,
        ..s
    }
}

// A field taken.
#[tactic(auto, unfolding(crate::specs::Shape::step, crate::specs::Shape::step_in))]
fn step(s: State, t: Token) -> State
    ensures { result ≡ Machine.step s t }
{
    let phase = s.phase;
    match phase {
        Phase::AtProblem => expect(s, is_problem(t), Phase::AtFormat),
        Phase::AtFormat => expect(s, is_cnf(t), Phase::AtVariables),
        Phase::AtVariables => at_variables(s, number_of(t)),
        Phase::AtCount => at_count(s, number_of(t)),
        Phase::AtHeaderEnd => expect(s, is_line(t), Phase::AtRow),
        Phase::AtRow => row_start(s, t),
        Phase::AtFirstAtom => expect(s, in_range(s.variables, number_of(t)), Phase::AtAtom),
        Phase::AtAtom => at_atom(s, t),
        Phase::AtBlockEnd => expect(s, is_line(t), Phase::AtRow),
        Phase::AtClause => clause_start(s, t),
        Phase::AtLiteral => at_literal(s, t),
        Phase::AtClauseEnd => at_clause_end(s, is_line(t)),
        Phase::Broken => s,
    }
}

// Takes all fields from a place on.
pub fn run(text: &[u8], from: usize) -> State
    requires { from ≤ length text.now }
    ensures { result ≡ Machine.run Machine.start (tokens (drop from text.now)) }
{
    let mut state = State {
        phase: Phase::AtProblem,
        variables: 0,
        left: 0,
        last: 0,
    };
    let mut at = from;
    while at < text.len() {
        let taken = token::next(text, at);
        let field = taken.token;
        state = step(state, field);
        at = taken.end;
    }
    state
}

// Whether the last clause has ended.
#[tactic(auto, unfolding(crate::specs::Shape::whole, crate::specs::Shape::finished))]
pub fn whole(s: State) -> bool
    ensures { result ≡ Machine.whole s }
{
    let phase = s.phase;
    match phase {
        Phase::AtClause => s.left == 0,
        _ => false,
    }
}
