// Big-endian words of a slice of bytes.
ghost use Rattle.std.specs.Prelude.{◌+◌, ◌≤◌, ◌≡◌, length};
ghost use Rattle.rounding_runs.specs.Words.{word_at};

// The bytes of a word.
const WORD: usize = 8;

// The big-endian number of eight bytes.
pub fn word(s: &[u8], at: usize) -> u64
    requires { at + 8 ≤ length s.now }
    ensures { result ≡ word_at s.now at }
{
    let mut bytes = [0; WORD];
    bytes.copy_from_slice(&s[at..at + WORD]);
    u64::from_be_bytes(bytes)
}
