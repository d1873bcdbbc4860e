// Runs the texts of standard input, a case to a line, and prints what the crate `decimal` makes of each:
//     d TEXT        a decimal: its digits and its code, its text laid into buffers with room and without, its digits without
//                   point and leading zeros, from the last to the first
//     w TEXT        a whole number, written back
//     c TEXT        a checksum
//     < TEXT TEXT   the order of two decimals
// A text that is refused prints `refused`. What is to come was worked out apart from the crate, by tools/decimal_vectors.py.
#![tactic(auto)]

ghost use Rattle.decimal.specs.Decimal.{number};
ghost use Rattle.decimal.specs.Limits.{Within};

use decimal::{Decimal, Tail};
use lines::LINE_END;
use reading::read_full;
use std::cmp::Ordering;
use std::io;

const BLANK: u8 = b' ';

// The longest input.
const INPUT: usize = 65536;

fn main(rt: HostRuntime) -> io::Result<()> {
    let mut text = [0; INPUT];
    let n = read_full(&mut rt.stdin(), &mut text)?;
    run_lines(&rt, &text[..n])
}

fn run_lines(out: &impl Print, s: &[u8]) -> io::Result<()> {
    for line in s.split_inclusive(|b| *b == LINE_END) {
        run_line(out, line.strip_suffix(b"\n").unwrap_or(line))?;
    }
    Ok(())
}

fn run_line(out: &impl Print, s: &[u8]) -> io::Result<()> {
    if s.len() < 2 {
        return say(out, b"no case\n");
    }
    let text = &s[2..];
    match s[0] {
        b'd' => run_decimal(out, text),
        b'w' => run_whole(out, text),
        b'c' => run_checksum(out, text),
        _ => run_order(out, text),
    }
}

fn say(out: &impl Print, text: &[u8]) -> io::Result<()> {
    out.write_all(text)
}

fn run_decimal(out: &impl Print, s: &[u8]) -> io::Result<()> {
    let Some(d) = decimal::parse(s) else {
        return say(out, b"refused\n");
    };
    say_decimal(out, d)
}

fn say_decimal(out: &impl Print, d: Decimal) -> io::Result<()>
    requires { Within (number d) }
{
    let parts = decimal::parts_of(d);
    out.print(parts.digits)?;
    say(out, b" ")?;
    out.print(parts.code)?;
    say(out, b" ")?;
    say_text(out, d, 2)?;
    say(out, b" ")?;
    say_text(out, d, 8)?;
    say(out, b" ")?;
    say_tail(out, decimal::stripped_tail(d))?;
    if decimal::is_zero(d) {
        say(out, b" zero")?;
    }
    say(out, b"\n")
}

// Where the text ends in a buffer of 28 bytes, or that it has no room there; then the whole buffer.
fn say_text(out: &impl Print, d: Decimal, at: usize) -> io::Result<()>
    requires { Within (number d) }
{
    let mut buffer = [b'*'; 28];
    let part: &mut [u8] = &mut buffer;
    match decimal::write(d, part, at) {
        Some(end) => out.print(end)?,
        None => say(out, b"full")?,
    }
    say(out, b" ")?;
    say(out, part)
}

// A text, from its last byte to its first.
fn say_tail(out: &impl Print, t: Tail) -> io::Result<()> {
    let mut rest = t;
    while let Some(byte) = rest.pop() {
        say(out, &[byte])?;
    }
    Ok(())
}

fn run_whole(out: &impl Print, s: &[u8]) -> io::Result<()> {
    let Some(n) = decimal::parse_whole(s) else {
        return say(out, b"refused\n");
    };
    say_whole(out, n)
}

// Where the digits end in a buffer of 28 bytes; then the whole buffer.
fn say_whole(out: &impl Print, n: u64) -> io::Result<()> {
    let mut buffer = [b'*'; 28];
    let part: &mut [u8] = &mut buffer;
    match decimal::write_whole(n, part, 2) {
        Some(end) => out.print(end)?,
        None => say(out, b"full")?,
    }
    say(out, b" ")?;
    say(out, part)?;
    say(out, b"\n")
}

fn run_checksum(out: &impl Print, s: &[u8]) -> io::Result<()> {
    let Some(n) = decimal::parse_checksum(s) else {
        return say(out, b"refused\n");
    };
    out.print(n)?;
    say(out, b"\n")
}

fn run_order(out: &impl Print, s: &[u8]) -> io::Result<()> {
    let Some(end) = s.iter().position(|b| *b == BLANK) else {
        return say(out, b"no case\n");
    };
    let Some(a) = decimal::parse(&s[..end]) else {
        return say(out, b"refused\n");
    };
    let Some(b) = decimal::parse(&s[end + 1..]) else {
        return say(out, b"refused\n");
    };
    match decimal::compare(a, b) {
        Ordering::Less => say(out, b"less\n"),
        Ordering::Equal => say(out, b"equal\n"),
        Ordering::Greater => say(out, b"greater\n"),
    }
}
