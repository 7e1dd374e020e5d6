ghost use Rattle.std.specs.Prelude.{◌≡◌, ◌+◌, drop};
ghost use Rattle.text.specs.Space.{is_space, spaces};

// The bits at 9 to 13 and at 32.
const SPACES: u64 = 0x1_0000_3e00;

pub fn is_space(b: u8) -> bool
    ensures { result ≡ is_space b }
{
    if 32 < b {
        return false;
    }
    (SPACES >> b) % 2 == 1
}

// The offset after the white space that stands at `at`.
pub fn skip_space(s: &[u8], at: usize) -> usize
    ensures { result ≡ at + spaces (drop at s.now) }
{
    for i in at..s.len() {
        if !is_space(s[i]) {
            return i;
        }
    }
    at.max(s.len())
}
