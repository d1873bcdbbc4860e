// Price levels: a level as a side keeps it, in words, and the entries of a message that set or remove one. A side has up to
// 100 levels, best first: bids from high to low, asks from low to high, at most one level a price, prices compared by value.
// What a level's words are is known here alone.
//
//     let level = level::make(price, size, sum, length);
//     level::put_level(&mut bids, 0, level);
//     level::price_of(level::level_in(&bids, 0))                  // the price of the best bid
#![tactic(auto)]

mod words;

ghost use Rattle.std.specs.Prelude.{◌≡◌, ◌≤◌};
ghost use Rattle.decimal.specs.Decimal.{number};
ghost use Rattle.decimal.specs.Limits.{Within};
ghost use Rattle.level.specs.Order.{ahead_of};
ghost use Rattle.level.specs.Words.{max_length, level_made, level_of, parts_of, level_price, level_size, level_sum, level_length, EntryOf};
ghost use Rattle.level.specs.Kept.{max_levels, held, level_at, Empty};

use decimal::Decimal;
use edit::Side;
use std::cmp::Ordering;
pub use words::{level_in, put_level};

// How many levels a side keeps.
pub const MAX_LEVELS: usize = 100;

// How many words a level takes.
const LEVEL_WORDS: usize = 3;

// The words of a side that is kept.
pub const MAX_WORDS: usize = LEVEL_WORDS * MAX_LEVELS;

// A price and a size as they were sent, and the CRC of the level's own piece of checksum text with its length, made by
// whoever makes the level. `price` and `size` have the digits up to the ninth decimal; `rest` has the sum in bits 0 to 31, the
// length in bits 32 to 39, and in 12 bits each the code of the price and that of the size (see `decimal`).
#[derive(Clone, Copy)]
pub struct Level {
    price: u64,
    size: u64,
    rest: u64,
}

// The words of a level, for whoever keeps it in words of their own.
#[derive(Clone, Copy)]
pub struct Parts {
    pub price: u64,
    pub size: u64,
    pub rest: u64,
}

#[derive(Clone, Copy)]
pub enum Change {
    Set(Level),
    Remove(Decimal),
}

// An entry of a message.
#[derive(Clone, Copy)]
pub struct Entry {
    pub side: Side,
    pub change: Change,
}

// A side that is kept: `count` levels at the front of `words`, best first. A level is kept in words, since an array of numbers can
// be lent, and one of structs cannot.
#[derive(Clone, Copy)]
pub struct Levels {
    pub words: [u64; MAX_WORDS],
    pub count: usize,
}

// What stands where no level was put yet.
pub const EMPTY: Level = Level {
    price: 0,
    size: 0,
    rest: 0,
};

// A side with no level.
pub fn empty() -> Levels
    ensures { Empty result }
{
    Levels {
        words: [0; MAX_WORDS],
        count: 0,
    }
}

// The level at a place, counted from 0 as best.
pub fn level_at(kept: Levels, i: usize) -> Option<Level>
    requires { kept.count ≤ max_levels }
    ensures { result ≡ level_at i (held kept) }
{
    if i < kept.count {
        Some(level_in(&kept.words, i))
    } else {
        None
    }
}

// The level of a price and a size, with the sum and the length of its piece of checksum text.
pub fn make(price: Decimal, size: Decimal, sum: u32, length: u64) -> Level
    requires { Within (number price) × Within (number size) × (length ≤ max_length) }
    ensures { result ≡ level_made (number price) (number size) sum length }
{
    let p = decimal::parts_of(price);
    let s = decimal::parts_of(size);
    Level {
        price: p.digits,
        size: s.digits,
        rest: words::pack(sum, length, p.code, s.code),
    }
}

pub fn price_of(level: Level) -> Decimal
    ensures { number result ≡ level_price level }
{
    decimal::of_parts(level.price, words::price_code(level.rest))
}

pub fn size_of(level: Level) -> Decimal
    ensures { number result ≡ level_size level }
{
    decimal::of_parts(level.size, words::size_code(level.rest))
}

pub fn sum_of(level: Level) -> u32
    ensures { result ≡ level_sum level }
{
    (level.rest % words::LENGTH) as u32
}

pub fn length_of(level: Level) -> u16
    ensures { result ≡ level_length level }
{
    (level.rest / words::LENGTH % 256) as u16
}

// The words of a level, and the level that words are. Any three words are a level.
pub fn parts_of(level: Level) -> Parts
    ensures { result ≡ parts_of level }
{
    Parts {
        price: level.price,
        size: level.size,
        rest: level.rest,
    }
}

pub fn of_parts(price: u64, size: u64, rest: u64) -> Level
    ensures { result ≡ level_of price size rest }
{
    Level { price, size, rest }
}

// The entry of a side, a price and a size: a size of zero removes the price. A level that it sets has no sum yet.
pub fn entry_of(side: Side, price: Decimal, size: Decimal) -> Entry
    requires { Within (number price) × Within (number size) }
    ensures { EntryOf (record { side = side; price = number price; size = number size }) result }
{
    if decimal::is_zero(size) {
        return Entry {
            side,
            change: Change::Remove(price),
        };
    }
    Entry {
        side,
        change: Change::Set(make(price, size, 0, 0)),
    }
}

// Does the first of two prices, in this order by value, stand nearer the top?
pub fn is_ahead(side: Side, order: Ordering) -> bool
    ensures { result ≡ ahead_of side order }
{
    match side {
        Side::Bids => order.is_gt(),
        Side::Asks => order.is_lt(),
    }
}
