// Runs the table of texts on standard input, a case to a line, and writes what `json_values` and `json_tokens` answer.
//
//     + TEXT    is JSON by RFC 8259's grammar and the limit on nesting
//     - TEXT    is not
//     e TEXT    an array: its elements are written on a line of their own
//     m TEXT    an object: its members are, and which of their names mean `as`
//     = STRING NAME    the string means the name
//     ! STRING NAME    it does not
//
// Other lines are headings. The answer stands in front of each `+` and `-`, `=` and `!`, so a wrong one shows as two signs that differ. After the
// table come rows of 256 answers, one for each byte at one place of a text.
#![tactic(auto)]

ghost use Rattle.std.specs.Prelude.{◌<◌, length};

use json_tokens::{
    OPEN_ARRAY, OPEN_OBJECT, array_close_end, colon_end, comma_end, is_ended, number_end,
    object_close_end, scalar_end, skip_blanks, string_end,
};
use json_values::{MAX_DEPTH, array_end, is_name, object_end, value_end};
use lines::LINE_END;
use reading::read_full;
use std::io;

// The longest input.
const INPUT: usize = 65536;

fn main(rt: HostRuntime) -> io::Result<()> {
    let mut table = [0; INPUT];
    let n = read_full(&mut rt.stdin(), &mut table)?;
    run_lines(&rt, &table[..n])?;
    rows(&rt)
}

fn write(out: &impl Print, s: &[u8]) -> io::Result<()> {
    out.write_all(s)
}

fn newline(out: &impl Print) -> io::Result<()> {
    write(out, b"\n")
}

// ---- the table

fn run_lines(out: &impl Print, s: &[u8]) -> io::Result<()> {
    for whole in s.split_inclusive(|b| *b == LINE_END) {
        line(out, whole.strip_suffix(b"\n").unwrap_or(whole))?;
        newline(out)?;
    }
    Ok(())
}

fn line(out: &impl Print, s: &[u8]) -> io::Result<()> {
    if s.len() < 2 {
        return write(out, s);
    }
    let text = &s[2..];
    match s[0] {
        b'+' | b'-' => sign(out, text)?,
        b'=' | b'!' => name_sign(out, text)?,
        _ => (),
    }
    write(out, s)?;
    match s[0] {
        b'e' => {
            newline(out)?;
            elements(out, text)
        }
        b'm' => {
            newline(out)?;
            members(out, text)
        }
        _ => Ok(()),
    }
}

fn sign(out: &impl Print, s: &[u8]) -> io::Result<()> {
    write(out, if is_json(s) { b"+ " } else { b"- " })
}

// A string, a blank and a name. Where no string stands, nothing at the front means no name.
fn name_sign(out: &impl Print, s: &[u8]) -> io::Result<()> {
    let end = string_end(s, 0).unwrap_or(0);
    if end < s.len() {
        let means = is_name(s, 0, end, &s[end + 1..]);
        write(out, if means { b"= " } else { b"! " })?;
    }
    Ok(())
}

// Whether the whole of s is JSON.
fn is_json(s: &[u8]) -> bool {
    value_end(s, skip_blanks(s, 0), MAX_DEPTH).is_some_and(|end| is_ended(s, end))
}

// ---- elements and members

// How deep arrays and objects may nest in an item of the text, and in an item of that.
const ITEM_DEPTH: usize = MAX_DEPTH - 1;

const INNER_DEPTH: usize = MAX_DEPTH - 2;

// No text of the table has more items.
const MAX_ITEMS: usize = 32;

fn elements(out: &impl Print, s: &[u8]) -> io::Result<()> {
    let empty = array_close_end(s, 1);
    if empty.is_some() {
        return tell_end(out, empty);
    }
    let mut at = skip_blanks(s, 1);
    for _ in 0..MAX_ITEMS {
        let Some(end) = value_end(s, at, ITEM_DEPTH) else {
            return tell_end(out, None);
        };
        item(out, s, at, end)?;
        let Some(next) = comma_end(s, end) else {
            return tell_end(out, array_close_end(s, end));
        };
        at = next;
    }
    Ok(())
}

fn members(out: &impl Print, s: &[u8]) -> io::Result<()> {
    let empty = object_close_end(s, 1);
    if empty.is_some() {
        return tell_end(out, empty);
    }
    let mut at = skip_blanks(s, 1);
    for _ in 0..MAX_ITEMS {
        let Some(found) = member_at(s, at) else {
            return tell_end(out, None);
        };
        name(out, s, at, found.name_end)?;
        item(out, s, found.value_from, found.end)?;
        let Some(next) = comma_end(s, found.end) else {
            return tell_end(out, object_close_end(s, found.end));
        };
        at = next;
    }
    Ok(())
}

// A member: where its name ends, where its value begins, and the position past it.
#[derive(Clone, Copy)]
struct Member {
    name_end: usize,
    value_from: usize,
    end: usize,
}

fn member_at(s: &[u8], at: usize) -> Option<Member> {
    let name_end = string_end(s, at)?;
    let value_from = colon_end(s, name_end)?;
    let end = value_end(s, value_from, ITEM_DEPTH)?;
    Some(Member {
        name_end,
        value_from,
        end,
    })
}

// A name, with a `=` where it means `as`.
fn name(out: &impl Print, s: &[u8], from: usize, to: usize) -> io::Result<()> {
    write(out, b"  ")?;
    if is_name(s, from, to, b"as") {
        write(out, b"=")?;
    }
    part(out, s, from, to)
}

// A value behind its kind, which the function that passes over it tells.
fn item(out: &impl Print, s: &[u8], from: usize, to: usize) -> io::Result<()> {
    if string_end(s, from) == Some(to) {
        write(out, b"  string ")?;
    } else if number_end(s, from) == Some(to) {
        write(out, b"  number ")?;
    } else if scalar_end(s, from) == Some(to) {
        write(out, b"  literal ")?;
    } else if from < s.len() {
        container(out, s, from, to)?;
    }
    part(out, s, from, to)
}

fn container(out: &impl Print, s: &[u8], from: usize, to: usize) -> io::Result<()>
    requires { from < length s.now }
{
    match s[from] {
        OPEN_ARRAY if array_end(s, from + 1, INNER_DEPTH) == Some(to) => write(out, b"  array "),
        OPEN_OBJECT if object_end(s, from + 1, INNER_DEPTH) == Some(to) => write(out, b"  object "),
        _ => Ok(()),
    }
}

fn part(out: &impl Print, s: &[u8], from: usize, to: usize) -> io::Result<()> {
    if let Some(bytes) = s.get(from..to) {
        write(out, bytes)?;
    }
    Ok(())
}

// Where the array or the object ends, if it is JSON.
fn tell_end(out: &impl Print, found: Option<usize>) -> io::Result<()> {
    let Some(end) = found else {
        return write(out, b"  broken");
    };
    write(out, b"  end at ")?;
    out.print(end)
}

// ---- rows of bytes

// Where in a text a byte is put.
#[derive(Clone, Copy)]
enum Place {
    BetweenQuotes,
    PastBackslash,
    FirstHexDigit,
    LastHexDigit,
    Alone,
    BeforeOne,
    PastOne,
    BetweenElements,
}

fn rows(out: &impl Print) -> io::Result<()> {
    row(out, b"# each byte between quotes\n", Place::BetweenQuotes)?;
    row(out, b"# each byte past a backslash\n", Place::PastBackslash)?;
    row(
        out,
        b"# each byte as the first hex digit\n",
        Place::FirstHexDigit,
    )?;
    row(
        out,
        b"# each byte as the last hex digit\n",
        Place::LastHexDigit,
    )?;
    row(out, b"# each byte alone\n", Place::Alone)?;
    row(out, b"# each byte before a 1\n", Place::BeforeOne)?;
    row(out, b"# each byte past a 1\n", Place::PastOne)?;
    row(
        out,
        b"# each byte between two elements\n",
        Place::BetweenElements,
    )
}

// The answers for each byte at a place: 8 lines of 32.
fn row(out: &impl Print, heading: &[u8], place: Place) -> io::Result<()> {
    write(out, heading)?;
    for b in 0..=255u8 {
        at_place(out, place, b)?;
        if b % 32 == 31 {
            newline(out)?;
        }
    }
    Ok(())
}

fn at_place(out: &impl Print, place: Place, b: u8) -> io::Result<()> {
    match place {
        Place::BetweenQuotes => sign_of(out, &[b'"', b, b'"']),
        Place::PastBackslash => sign_of(out, &[b'"', b'\\', b, b'"']),
        Place::FirstHexDigit => sign_of(out, &[b'"', b'\\', b'u', b, b'0', b'0', b'0', b'"']),
        Place::LastHexDigit => sign_of(out, &[b'"', b'\\', b'u', b'0', b'0', b'0', b, b'"']),
        Place::Alone => sign_of(out, &[b]),
        Place::BeforeOne => sign_of(out, &[b, b'1']),
        Place::PastOne => sign_of(out, &[b'1', b]),
        Place::BetweenElements => sign_of(out, &[b'[', b'1', b, b'1', b']']),
    }
}

fn sign_of(out: &impl Print, s: &[u8]) -> io::Result<()> {
    write(out, if is_json(s) { b"+" } else { b"-" })
}
