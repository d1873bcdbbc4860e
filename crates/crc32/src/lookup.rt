// A state moved by so many bytes, from the tables: eight look-ups in the one table that has them all.
ghost use Rattle.std.specs.Prelude.{◌≡◌, ◌*◌};
ghost use Rattle.crc32_spec.specs.Crc.{bits};

use crc32_tables::moved0;
use crc32_tables_long::moved1;

// The state moved by n bytes: after n bytes that are 0. Below 56 it is one step, and past them steps of 55. Each table is called at
// one place, so that it is inlined there, and where the compiler sees that a length is below 28, so that no look-up is tested.
pub fn shift(s: u32, n: u64) -> u32
    ensures { result ≡ bits (8 * n) s }
{
    let mut state = s;
    let mut left = n;
    while 28 <= left {
        let step = left.min(55);
        state = moved1(state, step - 28);
        left -= step;
        if left == 0 {
            return state;
        }
    }
    moved0(state, left)
}
