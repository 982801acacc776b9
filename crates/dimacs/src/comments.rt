// Comment lines: those that begin with c, before all others.
ghost use Rattle.std.specs.Prelude.{◌≡◌, false, ◌≤◌, length, drop};
ghost use Rattle.dimacs.specs.Token.{behind_comments};

// Where a text goes on behind its comment lines.
pub fn behind_comments(text: &[u8]) -> usize
    ensures { (drop result text.now ≡ behind_comments false text.now) × (result ≤ length text.now) }
{
    let mut inside = false;
    for (at, &b) in text.iter().enumerate() {
        if inside {
            inside = b != b'\n';
        } else {
            if b != b'c' {
                return at;
            }
            inside = true;
        }
    }
    text.len()
}
