// Runs the lines of standard input, a case each, and writes what the crate `entries` answers of the value that stands at 2 of it:
//
//     K TEXT    an entry of dialect K: its end, and the texts of its price and its size
//     M TEXT    an entry of dialect M
//     k TEXT    an array of entries of dialect K, read as bids: its end, how many there are, where the first bad one begins, outside a snapshot
//               and in one, and the digits and the code of each price and size that the buffer has
//     m TEXT    an array of entries of dialect M
//
// Other lines are headings. What is to come was worked out apart from the crate, by tools/entries_vectors.py.
#![tactic(auto)]

ghost use Rattle.std.specs.Prelude.{◌≡◌, length};
ghost use Rattle.edit.specs.Buffer.{buffer_words};

use decimal::Decimal;
use edit::{BUFFER_WORDS, MAX_BUFFERED, Side};
use entries::{ENTRY_DEPTH, Entries, EntryPlace, Form, none_yet};
use lines::LINE_END;
use reading::read_full;
use std::io;

// The longest input.
const INPUT: usize = 65536;

fn main(rt: HostRuntime) -> io::Result<()> {
    let mut table = [0; INPUT];
    let n = read_full(&mut rt.stdin(), &mut table)?;
    run_lines(&rt, &table[..n])
}

fn write(out: &impl Print, s: &[u8]) -> io::Result<()> {
    out.write_all(s)
}

fn run_lines(out: &impl Print, s: &[u8]) -> io::Result<()> {
    for whole in s.split_inclusive(|b| *b == LINE_END) {
        line(out, whole.strip_suffix(b"\n").unwrap_or(whole))?;
        newline(out)?;
    }
    Ok(())
}

fn newline(out: &impl Print) -> io::Result<()> {
    write(out, b"\n")
}

fn line(out: &impl Print, s: &[u8]) -> io::Result<()> {
    write(out, s)?;
    if s.len() < 2 {
        return Ok(());
    }
    match s[0] {
        b'K' => tell_entry(out, s, entries::entry_at(s, 2, ENTRY_DEPTH, Form::Triple)),
        b'M' => tell_entry(out, s, entries::entry_at(s, 2, ENTRY_DEPTH, Form::Pair)),
        b'k' => array(out, s, Form::Triple),
        b'm' => array(out, s, Form::Pair),
        _ => Ok(()),
    }
}

fn tell_entry(out: &impl Print, s: &[u8], found: EntryPlace) -> io::Result<()> {
    end(out, found.end)?;
    if found.well_formed {
        part(out, s, found.price_from, found.price_to)?;
        part(out, s, found.size_from, found.size_to)?;
    }
    Ok(())
}

fn array(out: &impl Print, s: &[u8], form: Form) -> io::Result<()> {
    let mut buffer: [u64; BUFFER_WORDS] = [0; BUFFER_WORDS];
    let read = entries::entries_at(
        s,
        2,
        ENTRY_DEPTH + 1,
        form,
        Side::Bids,
        none_yet(),
        &mut buffer,
    );
    tell_entries(out, read, &buffer)
}

fn tell_entries(out: &impl Print, read: Entries, buffer: &[u64; BUFFER_WORDS]) -> io::Result<()>
    requires { length buffer.now ≡ buffer_words }
{
    end(out, read.end)?;
    let met = read.tally;
    if met.well_formed {
        write(out, b" entries ")?;
        out.print(met.bids)?;
        if 0 < met.broken_at {
            write(out, b" broken ")?;
            out.print(met.broken_at)?;
        }
        if 0 < met.strict_at {
            write(out, b" strict ")?;
            out.print(met.strict_at)?;
        }
        numbers(out, buffer, met.bids)?;
    }
    Ok(())
}

// The numbers of the first n entries of the buffer, or of all that it has.
fn numbers(out: &impl Print, buffer: &[u64; BUFFER_WORDS], n: usize) -> io::Result<()>
    requires { length buffer.now ≡ buffer_words }
{
    for k in 0..n.min(MAX_BUFFERED) {
        let entry = edit::entry_in(buffer, k);
        write(out, b"\n    ")?;
        decimal(out, entry.price)?;
        write(out, b" ")?;
        decimal(out, entry.size)?;
    }
    Ok(())
}

fn decimal(out: &impl Print, a: Decimal) -> io::Result<()> {
    let parts = decimal::parts_of(a);
    out.print(parts.digits)?;
    write(out, b"/")?;
    out.print(parts.code)
}

fn end(out: &impl Print, e: usize) -> io::Result<()> {
    write(out, b"\n  end ")?;
    out.print(e)
}

fn part(out: &impl Print, s: &[u8], from: usize, to: usize) -> io::Result<()> {
    write(out, b" ")?;
    if let Some(bytes) = s.get(from..to) {
        write(out, bytes)?;
    }
    Ok(())
}
