// Numbers as text: laid into a lent buffer, or handed out from the last byte to the first.
ghost use Rattle.std.specs.Prelude.{◌≡◌, ◌+◌, ◌-◌, ◌/◌, ◌%◌, ◌^◌, ◌<◌, ◌≤◌, ◌++◌, length};
ghost use Rattle.decimal.specs.Digits.{significant, written};
ghost use Rattle.decimal.specs.Decimal.{number, text, stripped};
ghost use Rattle.decimal.specs.Limits.{Within};
ghost use Rattle.decimal.specs.Buffer.{overlaid};
ghost use Rattle.decimal.specs.Laying.{Laid};
ghost use Rattle.decimal.specs.Tail.{remaining, Stepped};

use crate::{Decimal, NEAR, Part, Tail, past, tidy};

const POINT: u8 = b'.';

const ZERO: u8 = b'0';

// Lays the text of a decimal into a buffer at a position: where the text ends, or none, where the buffer has no room for it and
// stays as it was.
pub fn write(a: Decimal, buffer: &mut [u8], at: usize) -> Option<usize>
    requires { Within (number a) }
    ensures { Laid buffer.old at (text (number a)) buffer.new result }
{
    lay(text_tail(a), buffer, at)
}

// Lays the digits of a whole number into a buffer at a position, as `write` does.
pub fn write_whole(n: u64, buffer: &mut [u8], at: usize) -> Option<usize>
    ensures { Laid buffer.old at (written n) buffer.new result }
{
    lay(whole_tail(n), buffer, at)
}

// How many bytes the text of a decimal has.
pub fn text_length(a: Decimal) -> usize
    requires { Within (number a) }
    ensures { result ≡ length (text (number a)) }
{
    tail_length(text_tail(a))
}

// How many digits a whole number has.
pub fn whole_length(n: u64) -> usize
    ensures { result ≡ length (written n) }
{
    tail_length(whole_tail(n))
}

// The text of a decimal.
pub fn text_tail(a: Decimal) -> Tail
    ensures { remaining result ≡ text (number a) }
{
    if a.code == 0 {
        return whole_tail(a.digits);
    }
    if a.code < 10 {
        return Tail {
            digits: a.digits,
            decimals: a.code,
            past: 0,
            part: Part::Fraction,
        };
    }
    Tail {
        digits: a.digits,
        decimals: NEAR,
        past: tidy(a.code) as u16,
        part: Part::Fraction,
    }
}

// The digits of a decimal without its point and leading zeros.
pub fn stripped_tail(a: Decimal) -> Tail
    ensures { remaining result ≡ stripped (number a) }
{
    if a.code < 10 {
        return digits_tail(a.digits);
    }
    if a.digits == 0 {
        return digits_tail(past(a.code));
    }
    Tail {
        digits: a.digits,
        decimals: 0,
        past: tidy(a.code) as u16,
        part: Part::Higher,
    }
}

// The digits of a whole number.
pub fn whole_tail(n: u64) -> Tail
    ensures { remaining result ≡ written n }
{
    Tail {
        digits: n,
        decimals: 0,
        past: 0,
        part: Part::Units,
    }
}

// The digits of a number without leading zeros: none of 0.
fn digits_tail(n: u64) -> Tail
    ensures { remaining result ≡ significant n }
{
    Tail {
        digits: n,
        decimals: 0,
        past: 0,
        part: Part::Higher,
    }
}

impl Tail {
    // Takes the last byte off the text.
    pub fn pop(&mut self) -> Option<u8>
        ensures { Stepped self.old result self.new }
    {
        if self.past > 9 {
            let byte = last_past(self.past);
            self.past /= 10;
            return Some(byte);
        }
        match self.part {
            Part::Fraction => {
                if self.decimals == 0 {
                    self.part = Part::Units;
                    return Some(POINT);
                }
                self.decimals -= 1;
                Some(self.pop_digit())
            }
            Part::Units => {
                self.part = Part::Higher;
                Some(self.pop_digit())
            }
            Part::Higher => {
                if self.digits == 0 {
                    return None;
                }
                Some(self.pop_digit())
            }
        }
    }

    // Takes the last off the digits up to the ninth decimal.
    fn pop_digit(&mut self) -> u8
        ensures byte { result ≡ 48 + self.old.digits % 10 }
        ensures others { self.new ≡ record { digits = self.old.digits / 10; decimals = self.old.decimals; past = self.old.past; part = self.old.part } }
    {
        let byte = last_digit(self.digits);
        self.digits /= 10;
        byte
    }
}

// The last digit of those past the ninth decimal. It has a type of its own, so that the compiler does not make one division of
// this and of `last_digit`, which then would share none with the division by ten beside it.
fn last_past(n: u16) -> u8
    ensures { result ≡ 48 + n % 10 }
{
    ZERO + (n % 10) as u8
}

fn last_digit(n: u64) -> u8
    ensures { result ≡ 48 + n % 10 }
{
    ZERO + (n % 10) as u8
}

fn tail_length(t: Tail) -> usize
    requires { length (remaining t) < 2 ^ 64 }
    ensures { result ≡ length (remaining t) }
{
    let mut rest = t;
    let mut n = 0;
    while rest.pop().is_some() {
        n += 1;
    }
    n
}

// Lays a text into a buffer at a position.
fn lay(t: Tail, buffer: &mut [u8], at: usize) -> Option<usize>
    requires { length (remaining t) < 2 ^ 64 }
    ensures { Laid buffer.old at (remaining t) buffer.new result }
{
    let n = tail_length(t);
    if buffer.len() < at || buffer.len() - at < n {
        return None;
    }
    fill(t, buffer, at + n);
    Some(at + n)
}

// Lays a text into a buffer so that it ends at a position.
fn fill(t: Tail, buffer: &mut [u8], end: usize)
    requires { (length (remaining t) ≤ end) × (end ≤ length buffer.old) }
    ensures { buffer.new ≡ overlaid buffer.old (end - length (remaining t)) (remaining t) }
{
    let mut rest = t;
    let mut i = end;
    while let Some(byte) = rest.pop() {
        i -= 1;
        buffer[i] = byte;
    }
}
