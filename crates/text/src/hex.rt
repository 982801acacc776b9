// Hexadecimal digits. A digit is read and written here and nowhere else.
ghost use Rattle.std.specs.Prelude.{◌≡◌, ◌+◌, ◌*◌, ◌-◌, ◌<◌, ◌≤◌, IfSome, length, unwrap_or};
ghost use Rattle.std.proofs.lemmas.List.Edits.{sets};
ghost use Rattle.text.specs.Hex.{digit_value, is_digit, digit_byte, hex_line, hex_lines};

// The value of a digit; `None` for a byte that is none.
#[tactic(auto, using(std::proofs::lemmas::Bool::Decides::nat_tests), unfolding(crate::specs::Hex::digit_value))]
pub fn digit_value(b: u8) -> Option<u8>
    ensures value { unwrap_or result 16 ≡ digit_value b }
    ensures digit { IfSome result (λ d. d < 16) }
{
    match b {
        b'0'..=b'9' => Some(b - b'0'),
        b'A'..=b'F' => Some(10 + (b - b'A')),
        b'a'..=b'f' => Some(10 + (b - b'a')),
        _ => None,
    }
}

#[tactic(auto, using(std::proofs::lemmas::Bool::Decides::nat_tests))]
pub fn is_digit(b: u8) -> bool
    ensures { result ≡ is_digit b }
{
    digit_value(b).is_some()
}

// The byte that a digit of this value is written as.
#[tactic(auto, using(std::proofs::lemmas::Bool::Decides::nat_tests), unfolding(crate::specs::Hex::digit_byte))]
fn digit_byte(d: u8) -> u8
    requires { d < 16 }
    ensures { result ≡ digit_byte d }
{
    if d < 10 { b'0' + d } else { b'A' + (d - 10) }
}

// Writes the line of bytes, which fills `out`.
pub fn put_line(bytes: &[u8], out: &mut [u8])
    requires { length out.old ≡ 2 * length bytes.now + 1 }
    ensures { out.new ≡ hex_line bytes.now }
{
    for (i, b) in bytes.iter().enumerate() {
        out[2 * i] = digit_byte(*b / 16);
        out[2 * i + 1] = digit_byte(*b % 16);
    }
    out[2 * bytes.len()] = b'\n';
}

// Writes the lines of the first `n` records of `size` bytes each. (Of what a loop over `chunks_exact_mut` wrote nothing would be known.)
pub fn put_lines(bytes: &[u8], size: usize, n: usize, out: &mut [u8])
    requires { (size ≤ 16) × (n * size ≤ length bytes.now) × (n * (2 * size + 1) ≤ length out.old) }
    ensures { out.new ≡ sets out.old 0 (hex_lines size n bytes.now) }
{
    let line = 2 * size + 1;
    for i in 0..n {
        let at = i * size;
        let to = i * line;
        put_line(&bytes[at..at + size], &mut out[to..to + line]);
    }
}
