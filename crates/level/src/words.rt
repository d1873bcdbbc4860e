// Levels as words: the digits of the price and of the size up to the ninth decimal, and one word for the rest of a level.
ghost use Rattle.std.specs.Prelude.{◌≡◌, ◌<◌, ◌≤◌, ◌^◌, length, get_or};
ghost use Rattle.level.specs.Words.{max_length, packed, price_code, size_code, levels_in, no_level};
ghost use Rattle.level.specs.Kept.{max_levels, max_words, PutAt};

use crate::{LEVEL_WORDS, Level, MAX_WORDS};

// Where a level's length, the price's code and the size's code begin in the third word; its sum begins at 1.
pub const LENGTH: u64 = 4_294_967_296;

const PRICE_CODE: u64 = 1_099_511_627_776;

const SIZE_CODE: u64 = 4_503_599_627_370_496;

// The third word.
pub fn pack(sum: u32, length: u64, price: u64, size: u64) -> u64
    requires { (length ≤ max_length) × (price < 2 ^ 12) × (size < 2 ^ 12) }
    ensures { result ≡ packed sum length price size }
{
    let codes = price + 4_096 * size;
    sum as u64 + LENGTH * (length + 256 * codes)
}

pub fn price_code(rest: u64) -> u64
    ensures { result ≡ price_code rest }
{
    rest / PRICE_CODE % 4_096
}

pub fn size_code(rest: u64) -> u64
    ensures { result ≡ size_code rest }
{
    rest / SIZE_CODE
}

// Level i of the words of a side.
pub fn level_in(words: &[u64; MAX_WORDS], i: usize) -> Level
    requires { (i < max_levels) × (length words.now ≡ max_words) }
    ensures { result ≡ get_or (levels_in words.now) i no_level }
{
    Level {
        price: words[LEVEL_WORDS * i],
        size: words[LEVEL_WORDS * i + 1],
        rest: words[LEVEL_WORDS * i + 2],
    }
}

// Puts a level at place i of the words of a side.
pub fn put_level(words: &mut [u64; MAX_WORDS], i: usize, level: Level)
    requires { (i < max_levels) × (length words.old ≡ max_words) }
    ensures { PutAt words.old i level words.new }
{
    words[LEVEL_WORDS * i] = level.price;
    words[LEVEL_WORDS * i + 1] = level.size;
    words[LEVEL_WORDS * i + 2] = level.rest;
}
