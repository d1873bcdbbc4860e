// What every layer asks of bytes. No crate stands below this one.
//
//     text::byte_at(b"7", 0) == b'7', text::byte_at(b"7", 1) == 0, text::is_digit(b'7'), text::wide(55) == 55
#![tactic(auto)]

ghost use Rattle.std.specs.Prelude.{◌≡◌, ◌+◌, ◌≤◌, ◌<◌, length};
ghost use Rattle.text.specs.Text.{byte_at, is_digit};
ghost use Rattle.text.specs.Words.{word_at};

// The byte at i, and 0 past the end. An `if` says so more plainly than `get`, `copied` and `unwrap_or` do.
pub fn byte_at(s: &[u8], i: usize) -> u8
    ensures { result ≡ byte_at s.now i }
{
    if i < s.len() { s[i] } else { 0 }
}

// Whether c is one of the digits 0 to 9.
pub fn is_digit(c: u8) -> bool
    ensures { result ≡ is_digit c }
{
    c.is_ascii_digit()
}

// A byte as a word.
pub fn wide(b: u8) -> u64
    ensures { (result ≡ b) × (result < 256) }
{
    u64::from(b)
}

// The eight bytes from a position on as one number, the first the lowest: a single load.
pub fn word_at(s: &[u8], at: usize) -> u64
    requires { at + 8 ≤ length s.now }
    ensures { result ≡ word_at s.now at }
{
    wide(s[at])
        + wide(s[at + 1]) * 256
        + wide(s[at + 2]) * 65536
        + wide(s[at + 3]) * 16777216
        + wide(s[at + 4]) * 4294967296
        + wide(s[at + 5]) * 1099511627776
        + wide(s[at + 6]) * 281474976710656
        + wide(s[at + 7]) * 72057594037927936
}
