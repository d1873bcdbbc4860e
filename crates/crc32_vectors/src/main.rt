// Compares `crc32` with a second CRC-32 that is written another way, on check values and on pieces of every length.
//
// The second one takes a text bit by bit into a register that moves upwards, with the polynomial 0x04C11DB7, and turns
// the register round at the end. Written for each group: how many comparisons were made, and how many of them differed.
#![tactic(auto)]

ghost use Rattle.std.specs.Prelude.{◌+◌, ◌≤◌, length, IfOk};

use std::io;

// ---- the second CRC-32

fn feed_bit(register: u32, bit: u32) -> u32 {
    if (register >> 31) ^ bit == 1 {
        (register << 1) ^ 0x04C11DB7
    } else {
        register << 1
    }
}

fn feed_byte(register: u32, b: u8) -> u32 {
    let mut r = register;
    for k in 0..8u32 {
        r = feed_bit(r, u32::from(b >> k) % 2);
    }
    r
}

// The state after a text.
fn second(s: u32, t: &[u8]) -> u32 {
    let mut register = s.reverse_bits();
    for b in t {
        register = feed_byte(register, *b);
    }
    register.reverse_bits()
}

fn second_crc(t: &[u8]) -> u32 {
    second(u32::MAX, t) ^ u32::MAX
}

// ---- one comparison: 1 where the two differ

fn differ(a: u32, b: u32) -> u64
    ensures { result ≤ 1 }
{
    u64::from(a != b)
}

fn text(t: &[u8], n: usize) -> u64
    requires { n ≤ length t.now }
    ensures { result ≤ 1 }
{
    let part = &t[..n];
    differ(crc32::crc(part), second_crc(part))
}

fn step(t: &[u8], n: usize) -> u64
    requires { n + 1 ≤ length t.now }
    ensures { result ≤ 1 }
{
    let whole = n + 1;
    differ(
        crc32::step(crc32::run(0, &t[..n]), t[n]),
        second(0, &t[..whole]),
    )
}

fn combine(t: &[u8], n: usize) -> u64
    requires { n + 13 ≤ length t.now }
    ensures { result ≤ 1 }
{
    let whole = n + 13;
    let a = crc32::run(crc32::START, &t[..13]);
    let b = crc32::run(0, &t[13..whole]);
    differ(
        crc32::combine(a, b, n as u64),
        second(crc32::START, &t[..whole]),
    )
}

fn front(t: &[u8], n: usize) -> u64
    requires { n + 1 ≤ length t.now }
    ensures { result ≤ 1 }
{
    let whole = n + 1;
    differ(
        crc32::front(t[0], crc32::run(0, &t[1..whole]), n as u64),
        second(0, &t[..whole]),
    )
}

// By way of a table of twenty rows: some lengths are below it, and some past it.
fn front_with(t: &[u8], n: usize) -> u64
    requires { n + 1 ≤ length t.now }
    ensures { result ≤ 1 }
{
    let mut table = [0; 5120];
    crc32::fill_table(&mut table);
    let whole = n + 1;
    differ(
        crc32::front_with(&table, t[0], crc32::run(0, &t[1..whole]), n as u64),
        second(0, &t[..whole]),
    )
}

fn shift(zeros: &[u8], n: usize) -> u64
    requires { n ≤ length zeros.now }
    ensures { result ≤ 1 }
{
    differ(
        crc32::shift(305419896, n as u64),
        second(305419896, &zeros[..n]),
    )
}

fn word(t: &[u8], at: usize) -> u64
    requires { at + 8 ≤ length t.now }
{
    let low = u64::from(t[at])
        + u64::from(t[at + 1]) * 256
        + u64::from(t[at + 2]) * 65536
        + u64::from(t[at + 3]) * 16777216;
    let high = u64::from(t[at + 4])
        + u64::from(t[at + 5]) * 256
        + u64::from(t[at + 6]) * 65536
        + u64::from(t[at + 7]) * 16777216;
    high * 4294967296 + low
}

// Of the padded text only the first eight bytes are not 0.
fn absorb(padded: &[u8], n: usize) -> u64
    requires { n + 8 ≤ length padded.now }
    ensures { result ≤ 1 }
{
    differ(
        crc32::absorb(crc32::START, word(padded, 0), n as u64),
        second(crc32::START, &padded[..n]),
    )
}

fn absorb8(t: &[u8], n: usize) -> u64
    requires { n + 8 ≤ length t.now }
    ensures { result ≤ 1 }
{
    let whole = n + 8;
    differ(
        crc32::absorb8(crc32::run(0, &t[..n]), word(t, n)),
        second(0, &t[..whole]),
    )
}

// What is compared.
#[derive(Clone, Copy)]
enum Group {
    Text,
    Step,
    Combine,
    Front,
    Absorb8,
    Absorb,
    FrontWith,
    Shift,
}

fn compared(group: Group, t: &[u8], n: usize) -> u64
    requires { n + 13 ≤ length t.now }
    ensures { result ≤ 1 }
{
    match group {
        Group::Text => text(t, n),
        Group::Step => step(t, n),
        Group::Combine => combine(t, n),
        Group::Front => front(t, n),
        Group::Absorb8 => absorb8(t, n),
        Group::Absorb => absorb(t, n),
        Group::FrontWith => front_with(t, n),
        Group::Shift => shift(t, n),
    }
}

// ---- all lengths of a group

#[derive(Clone, Copy)]
struct Counts {
    made: u64,
    differing: u64,
}

// The lengths from 0 on, `lengths` of them, compared.
fn tally(group: Group, t: &[u8], lengths: usize) -> Counts
    requires { lengths + 12 ≤ length t.now }
    ensures { result.differing ≤ lengths }
{
    let mut made: u64 = 0;
    let mut differing: u64 = 0;
    for n in 0..lengths {
        differing += compared(group, t, n);
        made += 1;
    }
    Counts { made, differing }
}

fn report(out: &impl Print, name: &str, group: Group, t: &[u8]) -> io::Result<u64>
    requires { 137 ≤ length t.now }
    ensures { IfOk result (λ differing. differing ≤ 125) }
{
    let found = tally(group, t, 125);
    let made = found.made;
    let differing = found.differing;
    println!(out; "{name}: lengths compared {made}, differing {differing}")?;
    Ok(differing)
}

// The first n bytes, from a simple generator.
fn fill(t: &mut [u8], n: usize)
    requires { n ≤ length t.old }
{
    let mut x: u32 = 12345;
    for b in t[..n].iter_mut() {
        x ^= x << 13;
        x ^= x >> 17;
        x ^= x << 5;
        *b = (x % 256) as u8;
    }
}

fn value(out: &impl Print, name: &str, t: &[u8]) -> io::Result<()> {
    let first = crc32::crc(t);
    let second = second_crc(t);
    println!(out; "{name}: {first}, second {second}")
}

fn main(rt: HostRuntime) -> io::Result<()> {
    value(&rt, "no bytes", b"")?;
    value(&rt, "123456789", b"123456789")?;
    value(&rt, "9:2:10:1", b"9:2:10:1")?;
    value(
        &rt,
        "twenty levels",
        b"50055005010500501550050205005025500503050050355005040500504550050505005000500499550049905004980500497550049705004965500496050049555004950500",
    )?;
    let mut bytes = [0u8; 144];
    fill(&mut bytes, 144);
    let mut padded = [0u8; 144];
    fill(&mut padded, 8);
    let zeros = [0u8; 144];
    let texts = report(&rt, "crc", Group::Text, &bytes)?;
    let steps = report(&rt, "step", Group::Step, &bytes)?;
    let combined = report(&rt, "combine", Group::Combine, &bytes)?;
    let fronts = report(&rt, "front", Group::Front, &bytes)?;
    let eights = report(&rt, "absorb8", Group::Absorb8, &bytes)?;
    let absorbed = report(&rt, "absorb", Group::Absorb, &padded)?;
    let tabled = report(&rt, "front_with", Group::FrontWith, &bytes)?;
    let shifted = report(&rt, "shift", Group::Shift, &zeros)?;
    let all = texts + steps + combined + fronts + eights + absorbed + tabled + shifted;
    println!(rt; "differing in all: {all}")
}
