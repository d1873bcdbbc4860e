// States moved by way of a table that is lent: four look-ups, one for a byte, and no test of how far but one.
//
// There are no global arrays, so whoever sums much fills a table once and lends it. A table may have any number of rows, also none:
// what is past its rows is moved without it.
ghost use Rattle.std.specs.Prelude.{◌≡◌, ◌+◌, ◌*◌, ◌/◌, ◌%◌, ◌^◌, ◌<◌};
ghost use Rattle.std.specs.Int.Bits.{bit_xor};
ghost use Rattle.crc32_spec.specs.Crc.{bits};
ghost use Rattle.crc32.specs.Table.{ShiftTable, FilledTable};

use crate::lookup::shift;
use crate::pieces::front;

// The entries of a row, one for each byte.
const ROW: usize = 256;

// The entries of a table that moves by up to 64 bytes.
pub const SHIFT_TABLE: usize = 64 * ROW;

// Fills a table, all of it.
pub fn fill_table(table: &mut [u32])
    ensures { FilledTable table.old table.new }
{
    for (i, entry) in table.iter_mut().enumerate() {
        *entry = shift((i % ROW) as u32, (i / ROW + 1) as u64);
    }
}

// The state after a joined text, as `combine` has it.
pub fn combine_with(table: &[u32], a: u32, b: u32, n: usize) -> u32
    requires { ShiftTable table.now }
    ensures { result ≡ bit_xor (bits (8 * n) a) b }
{
    shift_with(table, a, n) ^ b
}

// The state, from 0, of a text with one more byte in front, as `front` has it.
pub fn front_with(table: &[u32], b: u8, s: u32, n: u64) -> u32
    requires { ShiftTable table.now }
    ensures { result ≡ bit_xor (bits (8 * (n + 1)) b) s }
{
    if n < (table.len() / ROW) as u64 {
        return table[ROW * (n as usize) + usize::from(b)] ^ s;
    }
    front(b, s, n)
}

// The state moved by n bytes.
fn shift_with(table: &[u32], s: u32, n: usize) -> u32
    requires { ShiftTable table.now }
    ensures { result ≡ bits (8 * n) s }
{
    if n < 4 || table.len() / ROW < n {
        return shift(s, n as u64);
    }
    let end = ROW * n;
    let first = end - 4 * ROW;
    let rows = &table[first..end];
    rows[3 * ROW + byte(s, 0)]
        ^ rows[2 * ROW + byte(s, 1)]
        ^ rows[ROW + byte(s, 2)]
        ^ rows[byte(s, 3)]
}

// Byte j of a state, the lowest first.
fn byte(s: u32, j: u32) -> usize
    requires { j < 4 }
    ensures { (result ≡ s / 2 ^ (8 * j) % 256) × (result < 256) }
{
    ((s >> (8 * j)) % 256) as usize
}
