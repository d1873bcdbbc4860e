// Numbers read from a text.
ghost use Rattle.std.specs.Prelude.{◌≡◌, ◌+◌, ◌-◌, ◌*◌, ◌^◌, ◌≤◌, ◌&&◌, length, drop, ◌==◌, nat_lt, slice_index};
ghost use Rattle.decimal.specs.Decimal.{read, prefix};
ghost use Rattle.decimal.specs.Whole.{read_whole, read_checksum};
ghost use Rattle.decimal.specs.Reads.{parsed, parsed_front, Ran, DigitOf};

use crate::{Decimal, Front};
use text::{byte_at, is_digit, wide};

// Digits before the point, after it up to the ninth decimal and past that, and of a whole number; the largest checksum.
const MAX_WHOLE: usize = 10;

const NEAR_DECIMALS: usize = 9;

const FAR_DECIMALS: usize = 3;

const MAX_WHOLE_NUMBER: usize = 19;

const MAX_CHECKSUM: u64 = 4_294_967_295;

// The largest digit.
const LAST_DIGIT: u64 = 9;

const POINT: u8 = b'.';

const ZERO: u8 = b'0';

// Digits that were read: the number that they stand for, and the position past them.
#[derive(Clone, Copy)]
struct Run {
    value: u64,
    end: usize,
}

// The decimal that a text is.
pub fn parse(s: &[u8]) -> Option<Decimal>
    ensures { parsed result ≡ read s.now }
{
    let front = parse_at(s, 0)?;
    if front.end == s.len() {
        Some(front.decimal)
    } else {
        None
    }
}

// The decimal that a text has from a position on, as far as it goes.
pub fn parse_at(s: &[u8], at: usize) -> Option<Front>
    ensures { parsed_front at result ≡ prefix (drop at s.now) }
{
    let whole = digits_at(s, at, 0, MAX_WHOLE);
    let end = whole.end;
    if end == at || is_digit(byte_at(s, end)) || needless_zero(s, at, end) {
        return None;
    }
    if byte_at(s, end) != POINT {
        let decimal = Decimal {
            digits: whole.value,
            code: 0,
        };
        return Some(Front { decimal, end });
    }
    let start = end + 1;
    let fraction = digits_at(s, start, whole.value, NEAR_DECIMALS);
    let stop = fraction.end;
    if stop == start {
        return None;
    }
    if is_digit(byte_at(s, stop)) {
        // a 1, then the digits past the ninth decimal: the code that tells them
        let past = digits_at(s, stop, 1, FAR_DECIMALS);
        let last = past.end;
        if is_digit(byte_at(s, last)) {
            return None;
        }
        let decimal = Decimal {
            digits: fraction.value,
            code: past.value,
        };
        return Some(Front { decimal, end: last });
    }
    let decimal = Decimal {
        digits: fraction.value,
        code: (stop - start) as u64,
    };
    Some(Front { decimal, end: stop })
}

// The whole number that a text is.
pub fn parse_whole(s: &[u8]) -> Option<u64>
    ensures { result ≡ read_whole s.now }
{
    let w = digits_at(s, 0, 0, MAX_WHOLE_NUMBER);
    let end = w.end;
    if end == 0 || end < s.len() || needless_zero(s, 0, end) {
        return None;
    }
    Some(w.value)
}

// The checksum that a text is.
pub fn parse_checksum(s: &[u8]) -> Option<u32>
    ensures { result ≡ read_checksum s.now }
{
    let n = parse_whole(s)?;
    if n <= MAX_CHECKSUM {
        Some(n as u32)
    } else {
        None
    }
}

// The digits that a text has from a position on, `most` at the most, with the digits of `before` in front of them.
fn digits_at(s: &[u8], at: usize, before: u64, most: usize) -> Run
    requires { (before + 1) * 10 ^ most ≤ 2 ^ 64 }
    ensures { Ran s.now at before most result }
{
    let mut value = before;
    let mut end = at;
    for _ in 0..most {
        let digit = digit_at(s, end);
        if LAST_DIGIT < digit {
            return Run { value, end };
        }
        value = value * 10 + digit;
        end += 1;
    }
    Run { value, end }
}

// Whether the digits from `at` to `end` begin with a 0 that other digits follow.
fn needless_zero(s: &[u8], at: usize, end: usize) -> bool
    requires { (at + 1 ≤ end) × (end ≤ length s.now) }
    ensures { result ≡ (nat_lt 1 (end - at) && (slice_index s.now at) == 48) }
{
    end - at > 1 && s[at] == ZERO
}

// The value of the digit at a position, and 10 or more where there is none.
fn digit_at(s: &[u8], at: usize) -> u64
    ensures { DigitOf (slice_index s.now at) result }
{
    if at < s.len() {
        wide(s[at]).wrapping_sub(ZERO as u64)
    } else {
        10
    }
}
