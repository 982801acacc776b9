// The lines of a text: where they end, and how many stand in a row. What ends a line is told by `ending` alone. A line has two digits for each byte of
// its frame, and `size` is the number of these bytes. Each function takes what is left of the text.
ghost use Rattle.std.specs.Prelude.{◌≡◌, ◌<◌, ◌≤◌, IfSome, unwrap_or};
ghost use Rattle.text.specs.Line.{ending, digits, line_size, LinesAt};

use crate::hex::is_digit;

// Lines in a row: how many, and what is left of the text behind them.
#[derive(Clone, Copy)]
pub struct Counted<'a> {
    pub count: usize,
    pub rest: &'a [u8],
}

// How many bytes end a line here, 0A or 0D 0A; `None` where no line ends.
#[tactic(auto, using(std::proofs::lemmas::Bool::Decides::nat_tests), unfolding(crate::specs::Line::ending))]
pub fn ending(rest: &[u8]) -> Option<usize>
    ensures size { unwrap_or result 0 ≡ ending rest.now }
    ensures some { IfSome result (λ n. 0 < n) }
{
    match rest {
        [b'\n', ..] => Some(1),
        [b'\r', b'\n', ..] => Some(2),
        _ => None,
    }
}

// Whether the next `count` bytes are digits.
fn digits(rest: &[u8], count: usize) -> bool
    ensures { result ≡ digits count rest.now }
{
    count <= rest.len() && rest[..count].iter().all(|b| is_digit(*b))
}

// How many bytes the line here takes; `None` where it is not the digits of `size` bytes and a line's end.
pub fn line_size(rest: &[u8], size: usize) -> Option<usize>
    requires { size ≤ 16 }
    ensures size { unwrap_or result 0 ≡ line_size size rest.now }
    ensures some { IfSome result (λ n. 0 < n) }
{
    let count = 2 * size;
    if !digits(rest, count) {
        return None;
    }
    let end = ending(&rest[count..])?;
    Some(count + end)
}

// The lines that stand here in a row, `most` at most.
pub fn lines<'a>(text: &'a [u8], size: usize, most: usize) -> Counted<'a>
    requires { size ≤ 16 }
    ensures { LinesAt size text.now most result }
{
    let mut rest = text;
    for count in 0..most {
        let Some(bytes) = line_size(rest, size) else {
            return Counted { count, rest };
        };
        rest = &rest[bytes..];
    }
    Counted { count: most, rest }
}
