// Texts that are slices, eight bytes at a time.
ghost use Rattle.std.specs.Prelude.{◌≡◌, ◌+◌, ◌<◌, ◌≤◌, length, drop};
ghost use Rattle.crc32_spec.specs.Crc.{run, crc};
ghost use Rattle.text.specs.Words.{word};

use crate::START;
use crate::words::{absorb, absorb8};
use text::word_at;

// The checksum of a text.
pub fn crc(t: &[u8]) -> u32
    ensures { result ≡ crc t.now }
{
    run(START, t) ^ START
}

// The state after a text. A `while`, since `tail` takes the position that `chunks_exact` hides.
pub fn run(s: u32, t: &[u8]) -> u32
    ensures { result ≡ run s t.now }
{
    let mut state = s;
    let mut i = 0;
    while 8 <= t.len() - i {
        state = absorb8(state, word_at(t, i));
        i += 8;
    }
    tail(state, t, i)
}

// The state after what is left of a text, fewer than eight bytes. Where the text has eight, its last eight are one load.
fn tail(s: u32, t: &[u8], at: usize) -> u32
    requires { (at ≤ length t.now) × (length t.now < at + 8) }
    ensures { result ≡ run s (drop at t.now) }
{
    let n = t.len() - at;
    if n == 0 {
        return s;
    }
    if 8 <= t.len() {
        return absorb(
            s,
            word_at(t, t.len() - 8) >> (64 - 8 * (n as u64)),
            n as u64,
        );
    }
    absorb(s, load_few(t, at), n as u64)
}

// The bytes from a position on, fewer than eight, as one number: the last first.
fn load_few(t: &[u8], at: usize) -> u64
    requires { (at ≤ length t.now) × (length t.now < at + 8) }
    ensures { result ≡ word (drop at t.now) }
{
    let mut w = 0;
    for i in (at..t.len()).rev() {
        w = w * 256 + u64::from(t[i]);
    }
    w
}
