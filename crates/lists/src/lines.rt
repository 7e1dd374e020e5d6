// Where lines end.
ghost use Rattle.std.specs.Prelude.{◌≡◌, ◌+◌, ◌==◌, drop, position};
ghost use Rattle.lists.specs.Lines.{line_length};

// Where the first newline stands.
fn newline(s: &[u8]) -> Option<usize>
    ensures { result ≡ position (λ b. b == 10) s.now }
{
    s.iter().position(|b| *b == b'\n')
}

// The offset of the newline that ends the line at `from`, or of the end where no newline follows.
pub fn line_end(s: &[u8], from: usize) -> usize
    ensures { result ≡ from + line_length (drop from s.now) }
{
    let rest = &s[from.min(s.len())..];
    from + newline(rest).unwrap_or(rest.len())
}
