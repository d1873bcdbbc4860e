// Decimals and whole numbers as order books write them.
//
// A decimal is read from its text, compared by value, and written back exactly as it was read: `0.50` and `0.5`
// are one price and two texts. It has up to ten digits before the point and up to twelve after it: 22 digits, kept in
// two words. Its text is also handed out from its last byte to its first, so that a checksum can be fed from it with no
// text made on the way.
//
//     let Some(price) = decimal::parse(text) else { return; };   // `0.05120`
//     decimal::write(price, buffer, 0);                          // `0.05120` again
#![tactic(auto)]

mod reading;
mod writing;

ghost use Rattle.std.specs.Prelude.{◌≡◌, ◌/◌, ◌^◌, ◌≤◌};
ghost use Rattle.decimal.specs.Decimal.{number, number_of, past_of, decimals_of, value, is_zero, near};
ghost use Rattle.decimal.specs.Limits.{no_number, order, Within};
ghost use Rattle.decimal.specs.Words.{lower_of, parts_of, split_of, Tidied};

pub use reading::{parse, parse_at, parse_checksum, parse_whole};
use std::cmp::Ordering;
pub use writing::{
    stripped_tail, text_length, text_tail, whole_length, whole_tail, write, write_whole,
};

// How many decimals the digits have at the most.
const NEAR: u64 = 9;

// The digits up to the ninth decimal as one whole number, and a code for the rest: the number of decimals up to 9, and past
// that a 1 before the digits past the ninth decimal, as 1070 for 070.
#[derive(Clone, Copy)]
pub struct Decimal {
    digits: u64,
    code: u64,
}

// The words of a decimal, for whoever keeps it in words of their own.
#[derive(Clone, Copy)]
pub struct Parts {
    pub digits: u64,
    pub code: u64,
}

// A decimal in numbers: the digits up to the ninth decimal, those past it, and how many decimals there are.
#[derive(Clone, Copy)]
pub struct Split {
    pub digits: u64,
    pub past: u64,
    pub decimals: u64,
}

// A decimal at the front of a text, and the position past it.
#[derive(Clone, Copy)]
pub struct Front {
    pub decimal: Decimal,
    pub end: usize,
}

// What comes next of a number's text, from its end: digits past the ninth decimal; digits after the point, then the point;
// the last digit before the point; the digits before that one.
#[derive(Clone, Copy)]
enum Part {
    Fraction,
    Units,
    Higher,
}

// A text that is handed out from its end. The digits of `past` but for its first are the last of it.
#[derive(Clone, Copy)]
pub struct Tail {
    digits: u64,
    decimals: u64,
    past: u16,
    part: Part,
}

// 0 with no decimals.
pub fn zero() -> Decimal
    ensures { number result ≡ no_number }
{
    Decimal { digits: 0, code: 0 }
}

// The order of two decimals by value.
pub fn compare(a: Decimal, b: Decimal) -> Ordering
    requires { Within (number a) × Within (number b) }
    ensures { result ≡ order (number a) (number b) }
{
    if a.code == b.code {
        return a.digits.cmp(&b.digits);
    }
    let x = upper(a);
    let y = upper(b);
    if x == y {
        return lower(a.code).cmp(&lower(b.code));
    }
    x.cmp(&y)
}

pub fn is_zero(a: Decimal) -> bool
    ensures { result ≡ is_zero (number a) }
{
    a.digits == 0 && past(a.code) == 0
}

// The words of a decimal, and the decimal that words are. A code of `parts_of` is below 2,000, and `of_parts` takes any.
pub fn parts_of(a: Decimal) -> Parts
    ensures { result ≡ parts_of (number a) }
{
    Parts {
        digits: a.digits,
        code: tidy(a.code),
    }
}

pub fn of_parts(digits: u64, code: u64) -> Decimal
    ensures { number result ≡ number_of digits code }
{
    Decimal { digits, code }
}

// A decimal in numbers that each fit a word.
pub fn split_of(a: Decimal) -> Split
    ensures { result ≡ split_of (number a) }
{
    Split {
        digits: a.digits,
        past: past(a.code),
        decimals: decimals(a.code),
    }
}

// What counts of a decimal in its ninth decimal: its value without what is past that.
fn upper(a: Decimal) -> u64
    requires { Within (number a) }
    ensures { result ≡ value (number a) / 1000 }
{
    if a.code < NEAR {
        return a.digits * power(NEAR - a.code);
    }
    a.digits
}

// What a code tells past the ninth decimal, counted in the twelfth: the rest of the value, below 1,000.
fn lower(code: u64) -> u64
    ensures { result ≡ lower_of code }
{
    match code {
        0..=9 => 0,
        10..=99 => code % 10 * 100,
        100..=999 => code % 100 * 10,
        _ => code % 1_000,
    }
}

// The digits that a code tells.
fn past(code: u64) -> u64
    ensures { result ≡ past_of code }
{
    match code {
        0..=9 => 0,
        10..=99 => code % 10,
        100..=999 => code % 100,
        _ => code % 1_000,
    }
}

// How many decimals a code tells.
fn decimals(code: u64) -> u64
    ensures { result ≡ decimals_of code }
{
    match code {
        0..=9 => code,
        10..=99 => 10,
        100..=999 => 11,
        _ => 12,
    }
}

// The code below 2,000 that tells the same, with a 1 before its digits.
fn tidy(code: u64) -> u64
    ensures { Tidied code result }
{
    match code {
        0..=9 => code,
        10..=99 => 10 + code % 10,
        100..=999 => 100 + code % 100,
        _ => 1_000 + code % 1_000,
    }
}

// Ten to the k, for as many decimals as the digits may have.
fn power(k: u64) -> u64
    requires { k ≤ near }
    ensures { result ≡ 10 ^ k }
{
    match k {
        0 => 1,
        1 => 10,
        2 => 100,
        3 => 1_000,
        4 => 10_000,
        5 => 100_000,
        6 => 1_000_000,
        7 => 10_000_000,
        8 => 100_000_000,
        _ => 1_000_000_000,
    }
}
