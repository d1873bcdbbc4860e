// The CRC-32 of IEEE 802.3: the checksum of a text, also of one that is put together from pieces.
//
// `crc32::crc(b"123456789")` is 3421780262. Of pieces: with `a = crc32::run(crc32::START, x)` and
// `b = crc32::run(0, y)` the state after x and then y is `crc32::combine(a, b, n)`, where n is y's length, and a state
// becomes the checksum by `^ crc32::START`. Each contract is equality with the definition in `crc32_spec`. No public function has
// a `requires` but `combine_with` and `front_with`, which want a table that `fill_table` filled.
//
// `slices` reads slices, `words` takes pieces that are numbers, `pieces` puts pieces together, `lookup` moves a state, which these stand on;
// `table` puts pieces together by way of a table that the caller lends.
#![tactic(auto)]

mod lookup;
mod pieces;
mod slices;
mod table;
mod words;

pub use lookup::shift;
pub use pieces::{combine, front};
pub use slices::{crc, run};
pub use table::{SHIFT_TABLE, combine_with, fill_table, front_with};
pub use words::{absorb, absorb8, step};

// The state before the first byte of a text; `^ START` also turns the last state into the checksum, and back.
pub const START: u32 = u32::MAX;
