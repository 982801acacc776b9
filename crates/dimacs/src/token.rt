// The fields of a text. Blanks and what a number may be are told here and nowhere else.
ghost use Rattle.std.specs.Prelude.{◌≡◌, ◌≤◌, ◌<◌, length, drop, IfSome};
ghost use Rattle.std.proofs.Math.Seq.{slice};
ghost use Rattle.dimacs.specs.Token as Field;
ghost use Rattle.dimacs.specs.Token.{after_blanks, number_limit, Taken};

#[derive(Clone, Copy)]
pub enum Token {
    // The end of a line.
    Line,
    // The words p, cnf, e and a.
    Problem,
    Format,
    Exists,
    Forall,
    // A number that has no sign, and the absolute value of one that has a minus sign, at least 1.
    Number(u32),
    Negative(u32),
    Other,
}

// A field, and where the text goes on behind it.
#[derive(Clone, Copy)]
pub struct Step {
    pub token: Token,
    pub end: usize,
}

// Numbers are below 2^31, so that they fit 32 bits signed.
const NUMBER_LIMIT: u64 = 2147483648;

#[tactic(auto, using(std::proofs::lemmas::Bool::Decides::nat_tests), unfolding(crate::specs::Token::blank))]
fn blank(b: u8) -> bool
    ensures { result ≡ Field.blank b }
{
    b == b' ' || b == b'\t'
}

#[tactic(auto, using(std::proofs::lemmas::Bool::Decides::nat_tests), unfolding(crate::specs::Token::separates))]
fn separates(b: u8) -> bool
    ensures { result ≡ Field.separates b }
{
    blank(b) || b == b'\n'
}

// Where the blanks at a place end.
fn skip_blanks(text: &[u8], from: usize) -> usize
    requires { from ≤ length text.now }
    ensures { (drop result text.now ≡ after_blanks (drop from text.now)) × (from ≤ result) × (result ≤ length text.now) }
{
    for at in from..text.len() {
        if !blank(text[at]) {
            return at;
        }
    }
    text.len()
}

// Where the word at a place ends.
fn word_end(text: &[u8], from: usize) -> usize
    requires { from ≤ length text.now }
    ensures { (slice from result text.now ≡ Field.word (drop from text.now)) × (from ≤ result) × (result ≤ length text.now) }
{
    for at in from..text.len() {
        if separates(text[at]) {
            return at;
        }
    }
    text.len()
}

// The number with one digit more.
#[tactic(auto, using(std::proofs::lemmas::Bool::Decides::nat_tests), unfolding(crate::specs::Token::with_digit, crate::specs::Token::digit))]
fn with_digit(value: u32, b: u8) -> Option<u32>
    requires { value < number_limit }
    ensures value { result ≡ Field.with_digit value b }
    ensures below { IfSome result (λ n. n < number_limit) }
{
    if b < b'0' || b > b'9' {
        return None;
    }
    let wider = u64::from(value) * 10 + u64::from(b - b'0');
    if wider < NUMBER_LIMIT {
        return Some(wider as u32);
    }
    None
}

// The number that digits make.
fn digits(word: &[u8]) -> Option<u32>
    ensures { result ≡ Field.decimal_from 0 word.now }
{
    let mut value: u32 = 0;
    for &b in word {
        value = with_digit(value, b)?;
    }
    Some(value)
}

// The number that a word is: it has digits, and none of them is a leading zero.
#[tactic(auto, using(std::proofs::lemmas::Bool::Decides::nat_tests), unfolding(crate::specs::Token::decimal))]
fn decimal(word: &[u8]) -> Option<u32>
    ensures { result ≡ Field.decimal word.now }
{
    match word {
        [] | [b'0', _, ..] => None,
        _ => digits(word),
    }
}

#[tactic(auto, unfolding(crate::specs::Token::number_token))]
fn number_token(number: Option<u32>) -> Token
    ensures { result ≡ Field.number_token number }
{
    match number {
        Some(n) => Token::Number(n),
        None => Token::Other,
    }
}

#[tactic(auto, using(std::proofs::lemmas::Bool::Decides::nat_tests), unfolding(crate::specs::Token::negative_token))]
fn negative_token(number: Option<u32>) -> Token
    ensures { result ≡ Field.negative_token number }
{
    match number {
        None | Some(0) => Token::Other,
        Some(n) => Token::Negative(n),
    }
}

#[tactic(auto, using(std::proofs::lemmas::Bool::Decides::nat_tests), unfolding(crate::specs::Token::is_format))]
fn is_format(word: &[u8]) -> bool
    ensures { result ≡ Field.is_format word.now }
{
    matches!(word, [b'c', b'n', b'f'])
}

// A word of one byte: p, e, a or a digit.
#[tactic(auto, using(std::proofs::lemmas::Bool::Decides::nat_tests), unfolding(crate::specs::Token::letter_token))]
fn letter_token(b: u8) -> Token
    ensures { result ≡ Field.letter_token b }
{
    match b {
        b'p' => Token::Problem,
        b'e' => Token::Exists,
        b'a' => Token::Forall,
        _ => number_token(with_digit(0, b)),
    }
}

// What a word says.
#[tactic(auto, using(std::proofs::lemmas::Bool::Decides::nat_tests), unfolding(crate::specs::Token::token_of))]
fn token_of(word: &[u8]) -> Token
    requires { 0 < length word.now }
    ensures { result ≡ Field.token_of word.now }
{
    if word.len() == 1 {
        return letter_token(word[0]);
    }
    if is_format(word) {
        return Token::Format;
    }
    if word[0] == b'-' {
        return negative_token(decimal(&word[1..]));
    }
    number_token(decimal(word))
}

// The field at a place.
pub fn next(text: &[u8], at: usize) -> Step
    requires { at < length text.now }
    ensures { Taken text.now at result.token result.end }
{
    let from = skip_blanks(text, at);
    if from == text.len() {
        return Step {
            token: Token::Other,
            end: from,
        };
    }
    if text[from] == b'\n' {
        return Step {
            token: Token::Line,
            end: from + 1,
        };
    }
    let to = word_end(text, from);
    Step {
        token: token_of(&text[from..to]),
        end: to,
    }
}
