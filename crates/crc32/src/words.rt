// The state after a piece of text that is a number, its first byte lowest: no memory is read.
ghost use Rattle.std.specs.Prelude.{◌≡◌, ◌*◌, ◌/◌, ◌%◌, ◌^◌, ◌≤◌};
ghost use Rattle.std.specs.Int.Bits.{bit_xor};
ghost use Rattle.crc32_spec.specs.Crc.{bits, step};

use crate::lookup::shift;

// The state after one more byte.
pub fn step(s: u32, b: u8) -> u32
    ensures { result ≡ step s b }
{
    shift(s ^ u32::from(b), 1)
}

// How many values half of a word has.
const HALF: u64 = 1 << 32;

fn lower_half(w: u64) -> u32
    ensures { result ≡ w % 2 ^ 32 }
{
    (w % HALF) as u32
}

fn upper_half(w: u64) -> u32
    ensures { result ≡ w / 2 ^ 32 }
{
    (w / HALF) as u32
}

// The state after the eight bytes of w.
pub fn absorb8(s: u32, w: u64) -> u32
    ensures { result ≡ bits 64 (bit_xor s w) }
{
    shift(upper_half(w), 4) ^ shift(s ^ lower_half(w), 8)
}

// The lowest n bytes of w.
fn low_bytes(w: u64, n: u64) -> u64
    requires { n ≤ 8 }
    ensures { result ≡ w % 2 ^ (8 * n) }
{
    if n == 0 {
        return 0;
    }
    let unused = 64 - 8 * n;
    (w << unused) >> unused
}

// The state after the lowest n bytes of w; past the eighth they are 0.
pub fn absorb(s: u32, w: u64, n: u64) -> u32
    ensures { result ≡ bits (8 * n) (bit_xor s (w % 2 ^ (8 * n))) }
{
    if 8 < n {
        return shift(absorb8(s, w), n - 8);
    }
    let piece = low_bytes(w, n);
    let first = shift(s ^ lower_half(piece), n);
    if n < 4 {
        return first;
    }
    shift(upper_half(piece), n - 4) ^ first
}
