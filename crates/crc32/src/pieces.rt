// Pieces put together: a state moved past what follows it.
ghost use Rattle.std.specs.Prelude.{◌≡◌, ◌+◌, ◌*◌};
ghost use Rattle.std.specs.Int.Bits.{bit_xor};
ghost use Rattle.crc32_spec.specs.Crc.{bits};

use crate::lookup::shift;
use crate::words::step;

// The state after a joined text: a is the state after its first part, b its second part's own, from 0, and n the second part's length.
pub fn combine(a: u32, b: u32, n: u64) -> u32
    ensures { result ≡ bit_xor (bits (8 * n) a) b }
{
    shift(a, n) ^ b
}

// The state, from 0, of a text with one more byte b in front: s is the text's own, from 0, and n its length.
pub fn front(b: u8, s: u32, n: u64) -> u32
    ensures { result ≡ bit_xor (bits (8 * (n + 1)) b) s }
{
    if n < 55 {
        return shift(u32::from(b), n + 1) ^ s;
    }
    shift(step(0, b), n) ^ s
}
