// Runs the lines of standard input and writes a line for each, with what the crate `message` answers:
//
//     = DIALECT DEPTH NAME    the settings for what follows, as on line 1 of the line program
//     < MESSAGE               a message
//     + LENGTH MESSAGE        a message with blanks at its end up to a length
//
// Of a message it writes the number of the first of checks 1 to 8 that fails, or 0, how many entries there are for each side, the checksum,
// the sequence number, in M2 the one before it, and the entries in message order: the side's letter, then digits and code of the price and of the size. Then
// where the first bad decimal lies, and its text. Other lines are written as they are. What is to come was worked out apart from the
// crate, by tools/message_vectors.py.
#![tactic(auto)]

ghost use Rattle.std.specs.Prelude.{◌≡◌, length};
ghost use Rattle.edit.specs.Buffer.{buffer_words};

use answer::number_of;
use decimal::Decimal;
use edit::{BUFFER_WORDS, MAX_BUFFERED, Side};
use layout::{Outline, is_snapshot};
use line_text::read_settings;
use lines::{LINE_END, find};
use reading::read_full;
use settings::Dialect;
use std::io;

const BLANK: u8 = b' ';

// The longest message with blanks at its end.
const MAX_PADDED: usize = 40000;

// Settings; the name is a part of the input.
#[derive(Clone, Copy)]
struct Config<'a> {
    dialect: Dialect,
    depth: usize,
    name: &'a [u8],
}

fn main(rt: HostRuntime) -> io::Result<()> {
    let mut table = empty_table();
    let n = read_full(&mut rt.stdin(), &mut table)?;
    run_lines(&rt, &table[..n])
}

fn empty_table() -> [u8; 262144]
    ensures { 262144 ≡ length result }
{
    [0; 262144]
}

fn run_lines(out: &impl Print, s: &[u8]) -> io::Result<()> {
    let mut terms = no_terms();
    // By an index: settings that refer to an earlier line did not close over `split_inclusive`.
    let mut at = 0;
    while at < s.len() {
        let end = find(s, at, LINE_END);
        terms = run_line(out, terms, &s[at..end])?;
        write(out, b"\n")?;
        at = end + 1;
    }
    Ok(())
}

fn no_terms<'a>() -> Config<'a> {
    Config {
        dialect: Dialect::Unknown,
        depth: 0,
        name: b"",
    }
}

// Runs a line, and answers the settings for the next one.
fn run_line<'a>(out: &impl Print, terms: Config<'a>, line: &'a [u8]) -> io::Result<Config<'a>> {
    if line.len() < 2 {
        write(out, line)?;
        return Ok(terms);
    }
    let text = &line[2..];
    match line[0] {
        b'<' => tell(out, terms, text)?,
        b'+' => run_padded(out, terms, text)?,
        b'=' => {
            write(out, line)?;
            return Ok(read_terms(text));
        }
        _ => write(out, line)?,
    }
    Ok(terms)
}

fn read_terms(s: &[u8]) -> Config {
    let first = read_settings(s);
    if s.len() < first.name {
        return no_terms();
    }
    Config {
        dialect: first.dialect,
        depth: first.depth,
        name: &s[first.name..],
    }
}

// The whole number that a text writes, or 0 where it writes none.
fn whole(s: &[u8]) -> usize {
    decimal::parse_whole(s).unwrap_or(0) as usize
}

// A length, a blank, and a message that is told with blanks at its end up to that length.
fn run_padded(out: &impl Print, terms: Config, s: &[u8]) -> io::Result<()> {
    let end = find(s, 0, BLANK);
    if s.len() <= end {
        return Ok(());
    }
    let most = whole(&s[..end]);
    let padded = pad(&s[end + 1..]);
    if most <= MAX_PADDED {
        tell(out, terms, &padded[..most])?;
    }
    Ok(())
}

// A text with blanks past it, as far as it fits.
fn pad(text: &[u8]) -> [u8; MAX_PADDED]
    ensures { 40000 ≡ length result }
{
    let mut padded = [BLANK; MAX_PADDED];
    let n = text.len().min(MAX_PADDED);
    padded[..n].copy_from_slice(&text[..n]);
    padded
}

fn tell(out: &impl Print, terms: Config, text: &[u8]) -> io::Result<()> {
    match message::read(terms.dialect, terms.depth, terms.name, text) {
        Err(answer) => write_number(out, number_of(answer))?,
        Ok(outline) => tell_outline(out, outline, is_linked(terms.dialect))?,
    }
    tell_entries(out, terms, text)?;
    tell_bad(out, terms, text)
}

// The entries of a message that passes, as the buffer has them.
fn tell_entries(out: &impl Print, terms: Config, text: &[u8]) -> io::Result<()> {
    if !settings::is_good(terms.dialect, terms.depth, terms.name) {
        return Ok(());
    }
    let mut buffer = [0; BUFFER_WORDS];
    match message::read_open(terms.dialect, terms.depth, terms.name, text, &mut buffer) {
        Err(_) => Ok(()),
        Ok(outline) => tell_both(out, &buffer, outline.bids, outline.asks),
    }
}

fn tell_both(
    out: &impl Print,
    buffer: &[u64; BUFFER_WORDS],
    bids: usize,
    asks: usize,
) -> io::Result<()>
    requires { length buffer.now ≡ buffer_words }
{
    if bids <= MAX_BUFFERED && asks <= MAX_BUFFERED {
        tell_first(out, buffer, bids + asks)?;
    }
    Ok(())
}

// The first n entries of the buffer, or all that it has.
fn tell_first(out: &impl Print, buffer: &[u64; BUFFER_WORDS], n: usize) -> io::Result<()>
    requires { length buffer.now ≡ buffer_words }
{
    for k in 0..n.min(MAX_BUFFERED) {
        let entry = edit::entry_in(buffer, k);
        write_letter(out, entry.side)?;
        write_decimal(out, entry.price)?;
        write_decimal(out, entry.size)?;
    }
    Ok(())
}

fn write_letter(out: &impl Print, side: Side) -> io::Result<()> {
    match side {
        Side::Bids => write(out, b" b"),
        Side::Asks => write(out, b" a"),
    }
}

fn write_decimal(out: &impl Print, a: Decimal) -> io::Result<()> {
    write(out, b" ")?;
    let parts = decimal::parts_of(a);
    write_number(out, parts.digits)?;
    write(out, b"/")?;
    write_number(out, parts.code)
}

// Where the first bad decimal lies, and its text.
fn tell_bad(out: &impl Print, terms: Config, text: &[u8]) -> io::Result<()> {
    let part = message::bad_place(terms.dialect, terms.depth, terms.name, text);
    write(out, b" bad ")?;
    write_number(out, part.from as u64)?;
    write(out, b" ")?;
    write_number(out, part.to as u64)?;
    let bad = message::bad_decimal(terms.dialect, terms.depth, terms.name, text);
    if !bad.is_empty() {
        write(out, b" ")?;
        write(out, bad)?;
    }
    Ok(())
}

// Whether an update names the sequence number before its own.
fn is_linked(dialect: Dialect) -> bool {
    match dialect {
        Dialect::M(edition) => settings::is_linked(edition),
        Dialect::K | Dialect::Unknown => false,
    }
}

fn tell_outline(out: &impl Print, outline: Outline, linked: bool) -> io::Result<()> {
    let snapshot = is_snapshot(outline.kind);
    write(out, if snapshot { b"0 snapshot" } else { b"0 update" })?;
    write(out, b" bids ")?;
    write_number(out, outline.bids as u64)?;
    write(out, b" asks ")?;
    write_number(out, outline.asks as u64)?;
    if outline.printed {
        write(out, b" checksum ")?;
        write_number(out, outline.checksum as u64)?;
    }
    write(out, b" number ")?;
    write_number(out, outline.number)?;
    if linked && !snapshot {
        write(out, b" previous ")?;
        write_number(out, outline.previous)?;
    }
    Ok(())
}

fn write(out: &impl Print, s: &[u8]) -> io::Result<()> {
    out.write_all(s)
}

fn write_number(out: &impl Print, n: u64) -> io::Result<()> {
    out.print(n)
}
