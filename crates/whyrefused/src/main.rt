// Says of each message whether checks 1 to 8 refuse it, and why.
//
// Standard input is as for `booklines`: line 1 has the settings, and every later line is a message. For each message a line is written:
// the number of the first check that fails, or 0, and what it means; for 8 also the position of the first bad decimal, counted from 0,
// and its text, quotes included. A read or a write that fails ends the program with its error.
#![tactic(auto)]

ghost use Rattle.std.specs.Prelude.{◌≤◌, length, IfOk};

use answer::{Answer, number_of};
use lines::{LINE_END, find, move_to_front};
use settings::{Dialect, Settings};
use std::io;
use std::io::Read;

// How much of the input is read at once.
const INPUT: usize = 65536;

// What is carried over of a line: as much as shows that it is too long for a message.
const CARRIED: usize = message::MAX_MESSAGE + 1;

// The settings after some lines, none as long as line 1 was not read, and where the next line begins.
#[derive(Clone, Copy)]
struct Told {
    settings: Option<Settings>,
    next: usize,
}

fn main(rt: HostRuntime) -> io::Result<()> {
    let mut input = [0; INPUT];
    run(&rt, &mut rt.stdin(), &mut input)
}

// Tells of block after block until the input ends. A counted loop, since each loop must end.
fn run(out: &impl Print, input: &mut impl Read, buffer: &mut [u8]) -> io::Result<()> {
    let mut settings = None;
    let mut held = 0;
    for _ in 0..u64::MAX {
        let to = read_on(input, buffer, held)?;
        if to == held {
            return finish(out, settings, &buffer[..held]);
        }
        let told = tell_lines(out, settings, &buffer[..to])?;
        settings = told.settings;
        held = move_to_front(buffer, told.next, to, CARRIED);
    }
    Ok(())
}

// Reads into a buffer from a position on, as many bytes as come at once, and answers the position past them.
fn read_on(input: &mut impl Read, buffer: &mut [u8], from: usize) -> io::Result<usize>
    requires { from ≤ length buffer.old }
    ensures { IfOk result (λ to. (from ≤ to) × (to ≤ length buffer.new)) }
{
    let got = input.read(&mut buffer[from..])?;
    Ok(from + got)
}

// Tells of the lines that end in a text.
fn tell_lines(out: &impl Print, before: Option<Settings>, s: &[u8]) -> io::Result<Told>
    ensures { IfOk result (λ told. told.next ≤ length s.now) }
{
    let mut settings = before;
    let mut next = 0;
    while next < s.len() {
        let end = find(s, next, LINE_END);
        if s.len() <= end {
            return Ok(Told { settings, next });
        }
        settings = tell_line(out, settings, &s[next..end])?;
        next = end + 1;
    }
    Ok(Told { settings, next })
}

// A last line that has no line end.
fn finish(out: &impl Print, settings: Option<Settings>, line: &[u8]) -> io::Result<()> {
    if !line.is_empty() {
        tell_line(out, settings, line)?;
    }
    Ok(())
}

fn tell_line(
    out: &impl Print,
    settings: Option<Settings>,
    line: &[u8],
) -> io::Result<Option<Settings>> {
    match settings {
        Some(kept) => {
            tell(out, kept, line)?;
            Ok(settings)
        }
        None => Ok(Some(settings_on(line))),
    }
}

fn settings_on(line: &[u8]) -> Settings {
    let first = line_text::read_settings(line);
    settings::choose(first.dialect, first.depth, &line[first.name..])
}

fn tell(out: &impl Print, kept: Settings, text: &[u8]) -> io::Result<()> {
    if let Some(name) = kept.name.get(..kept.length) {
        tell_refusal(out, kept.dialect, kept.depth, name, text)?;
    }
    write(out, b"\n")
}

fn tell_refusal(
    out: &impl Print,
    dialect: Dialect,
    depth: usize,
    name: &[u8],
    text: &[u8],
) -> io::Result<()> {
    let answer = refusal(dialect, depth, name, text);
    out.print(number_of(answer))?;
    write(out, meaning(answer))?;
    if answer == Answer::BadDecimal {
        tell_bad(out, dialect, depth, name, text)?;
    }
    Ok(())
}

// What the first of checks 1 to 8 that fails answers, or that the message is taken.
fn refusal(dialect: Dialect, depth: usize, name: &[u8], text: &[u8]) -> Answer {
    match message::read(dialect, depth, name, text) {
        Err(answer) => answer,
        Ok(_) => Answer::Taken,
    }
}

fn meaning(answer: Answer) -> &'static [u8] {
    match answer {
        Answer::Taken => b" passes checks 1 to 8",
        Answer::Shut => b" the settings are bad",
        Answer::TooLong => b" the message is too long",
        Answer::NotJson => b" it is not JSON, or nested too deep",
        Answer::NotOurs => b" it is not this book's",
        Answer::BadLayout => b" the layout is broken",
        Answer::TooManyEntries => b" too many entries on one side",
        _ => b" a price or a size is no decimal, or is zero where it must not be",
    }
}

// Where the first bad decimal lies, and its text.
fn tell_bad(
    out: &impl Print,
    dialect: Dialect,
    depth: usize,
    name: &[u8],
    text: &[u8],
) -> io::Result<()> {
    let place = message::bad_place(dialect, depth, name, text);
    write(out, b": at ")?;
    out.print(place.from)?;
    write(out, b" ")?;
    write(out, message::bad_decimal(dialect, depth, name, text))
}

fn write(out: &impl Print, s: &[u8]) -> io::Result<()> {
    out.write_all(s)
}
