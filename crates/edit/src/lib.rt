// What the entries of a message say, in the order in which they stand in it: the side, the price and the size of each. They are kept as numbers
// in a buffer of words that whoever takes the message owns and lends to its reader.
//
//     edit::put(&mut buffer, 0, Side::Bids, price, size);
//     edit::entry_in(&buffer, 0).price
#![tactic(auto)]

ghost use Rattle.std.specs.Prelude.{◌≡◌, ◌<◌, length, get_or};
ghost use Rattle.decimal.specs.Decimal.{number};
ghost use Rattle.decimal.specs.Limits.{Within};
ghost use Rattle.edit.specs.Buffer.{max_buffered, buffer_words, side_in, entries_in, numbers_of, no_numbers, Put, side_number};

use decimal::Decimal;

#[derive(Clone, Copy, PartialEq, Eq)]
pub enum Side {
    Bids,
    Asks,
}

// How many entries a buffer holds: 100 for each side.
pub const MAX_BUFFERED: usize = 200;

// How many words an entry takes: the digits of the price and of the size up to the ninth decimal, and one for their codes (see `decimal`) and for the side.
const ENTRY_WORDS: usize = 3;

pub const BUFFER_WORDS: usize = ENTRY_WORDS * MAX_BUFFERED;

// Where the size's code and the side begin in the third word; the price's code begins at 1.
const SIZE_CODE: u64 = 65_536;

const SIDE: u64 = 4_294_967_296;

// An entry that is in a buffer.
#[derive(Clone, Copy)]
pub struct Buffered {
    pub price: Decimal,
    pub size: Decimal,
    pub side: Side,
}

// Puts an entry at place k of the buffer. Past its end nothing is put: a message with so many entries has too many for one side.
pub fn put(buffer: &mut [u64; BUFFER_WORDS], k: usize, side: Side, price: Decimal, size: Decimal)
    requires { (length buffer.old ≡ buffer_words) × Within (number price) × Within (number size) }
    ensures { Put buffer.old k (record { side = side; price = number price; size = number size }) buffer.new }
{
    if k < MAX_BUFFERED {
        let p = decimal::parts_of(price);
        let s = decimal::parts_of(size);
        let codes = p.code + SIZE_CODE * s.code;
        let rest = codes + SIDE * side_number(side);
        buffer[ENTRY_WORDS * k] = p.digits;
        buffer[ENTRY_WORDS * k + 1] = s.digits;
        buffer[ENTRY_WORDS * k + 2] = rest;
    }
}

// The entry at place k of the buffer.
pub fn entry_in(buffer: &[u64; BUFFER_WORDS], k: usize) -> Buffered
    requires { (k < max_buffered) × (length buffer.now ≡ buffer_words) }
    ensures { numbers_of result ≡ get_or (entries_in buffer.now) k no_numbers }
{
    let rest = buffer[ENTRY_WORDS * k + 2];
    let price = decimal::of_parts(buffer[ENTRY_WORDS * k], rest % SIZE_CODE);
    let size = decimal::of_parts(buffer[ENTRY_WORDS * k + 1], rest / SIZE_CODE % SIZE_CODE);
    Buffered {
        price,
        size,
        side: side_in(rest / SIDE),
    }
}

// A side as a number, and the side that a number stands for: 0 the bids, any other the asks.
pub fn side_number(side: Side) -> u64
    ensures { result ≡ side_number side }
{
    match side {
        Side::Bids => 0,
        Side::Asks => 1,
    }
}

pub fn side_in(n: u64) -> Side
    ensures { result ≡ side_in n }
{
    match n {
        0 => Side::Bids,
        _ => Side::Asks,
    }
}
