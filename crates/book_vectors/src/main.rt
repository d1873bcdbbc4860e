// Runs the calls of standard input on books and writes a line for each, with what the crate `book` answers:
//
//     = DIALECT DEPTH NAME    opens a book
//     < MESSAGE               hands it a message
//     c n u                   how many bids and asks, the number, the count of updates; C N U of the last good book
//     b I, a I                level I of the bids, of the asks; B I, A I of the last good book
//     w LENGTH                writes it into a buffer of that many dots
//     r                       writes it, opens a new book with the same settings, hands it the text, and goes on with that book
//
// Other lines are written as they are. What is to come was worked out apart from the crate, by tools/book_vectors.py.
#![tactic(auto)]

ghost use Rattle.std.specs.Prelude.{◌≡◌, length, IfOk};
ghost use Rattle.book.specs.Shown.{Good};

use answer::{Answer, number_of};
use book::Book;
use decimal::Decimal;
use edit::Side;
use lines::{LINE_END, find};
use reading::read_full;
use reference::Scope;
use std::io;

// The largest buffer to write into.
const ROOM: usize = 20000;

fn main(rt: HostRuntime) -> io::Result<()> {
    let mut table = empty_table();
    let n = read_full(&mut rt.stdin(), &mut table)?;
    run_lines(&rt, &table[..n])
}

fn empty_table() -> [u8; 262144]
    ensures { 262144 ≡ length result }
{
    [0; 262144]
}

fn dots() -> [u8; ROOM]
    ensures { 20000 ≡ length result }
{
    [b'.'; ROOM]
}

fn write(out: &impl Print, s: &[u8]) -> io::Result<()> {
    out.write_all(s)
}

fn say(out: &impl Print, n: u64) -> io::Result<()> {
    out.print(n)
}

fn run_lines(out: &impl Print, s: &[u8]) -> io::Result<()> {
    let mut book = feed::open(b"");
    let mut opening = &s[..find(s, 0, LINE_END)];
    // By an index: what each line keeps of the book did not close over `split_inclusive`.
    let mut at = 0;
    while at < s.len() {
        let end = find(s, at, LINE_END);
        let line = &s[at..end];
        if line.starts_with(b"=") {
            opening = line;
        }
        book = run_line(out, book, opening, line)?;
        write(out, b"\n")?;
        at = end + 1;
    }
    Ok(())
}

// The book after a line; `opening` is the line that opened it.
fn run_line(out: &impl Print, book: Book, opening: &[u8], line: &[u8]) -> io::Result<Book>
    requires { Good book }
    ensures { IfOk result (λ after. Good after) }
{
    if line.is_empty() {
        return Ok(book);
    }
    match line[0] {
        b'=' => Ok(open_line(line)),
        b'<' => hand(out, book, rest(line)),
        b'r' => back(out, book, opening),
        mark => {
            ask_line(out, book, line, mark)?;
            Ok(book)
        }
    }
}

// What stands past a mark and a blank.
fn rest(line: &[u8]) -> &[u8] {
    &line[line.len().min(2)..]
}

fn open_line(line: &[u8]) -> Book
    ensures { Good result }
{
    feed::open(rest(line))
}

fn ask_line(out: &impl Print, book: Book, line: &[u8], mark: u8) -> io::Result<()>
    requires { Good book }
{
    let i = index(rest(line));
    match mark {
        b'c' => tell_counts(out, book, Scope::Current),
        b'C' => tell_counts(out, book, Scope::LastGood),
        b'n' => tell_number(out, book, Scope::Current),
        b'N' => tell_number(out, book, Scope::LastGood),
        b'u' => tell_updates(out, book, Scope::Current),
        b'U' => tell_updates(out, book, Scope::LastGood),
        b'b' => tell_level(out, book, Scope::Current, Side::Bids, i),
        b'a' => tell_level(out, book, Scope::Current, Side::Asks, i),
        b'B' => tell_level(out, book, Scope::LastGood, Side::Bids, i),
        b'A' => tell_level(out, book, Scope::LastGood, Side::Asks, i),
        b'w' => tell_written(out, book, i),
        _ => write(out, line),
    }
}

// The whole number that a text writes, or 0 where it writes none.
fn index(text: &[u8]) -> usize {
    decimal::parse_whole(text).unwrap_or(0) as usize
}

fn tell_answer(out: &impl Print, answer: Answer) -> io::Result<()> {
    say(out, number_of(answer))?;
    write(out, b" ")
}

fn tell_counts(out: &impl Print, book: Book, scope: Scope) -> io::Result<()>
    requires { Good book }
{
    let counted = book.counts(scope);
    tell_answer(out, counted.answer)?;
    say(out, counted.bids as u64)?;
    write(out, b" ")?;
    say(out, counted.asks as u64)
}

fn tell_number(out: &impl Print, book: Book, scope: Scope) -> io::Result<()>
    requires { Good book }
{
    let reply = book.number(scope);
    tell_answer(out, reply.answer)?;
    say(out, reply.value)
}

fn tell_updates(out: &impl Print, book: Book, scope: Scope) -> io::Result<()>
    requires { Good book }
{
    let reply = book.updates(scope);
    tell_answer(out, reply.answer)?;
    say(out, reply.value)
}

fn tell_level(out: &impl Print, book: Book, scope: Scope, side: Side, i: usize) -> io::Result<()>
    requires { Good book }
{
    let reply = book.level(scope, side, i);
    tell_answer(out, reply.answer)?;
    tell_decimal(out, reply.price)?;
    write(out, b" ")?;
    tell_decimal(out, reply.size)
}

// Its text, which comes from the last byte to the first.
fn tell_decimal(out: &impl Print, d: Decimal) -> io::Result<()> {
    let mut text = [0; 24];
    let mut tail = decimal::text_tail(d);
    for at in (0..24).rev() {
        let Some(c) = tail.pop() else {
            return write(out, &text[at + 1..]);
        };
        text[at] = c;
    }
    Ok(())
}

fn tell_written(out: &impl Print, book: Book, n: usize) -> io::Result<()>
    requires { Good book }
{
    let mut room = dots();
    if n <= ROOM {
        tell_room(out, book, &mut room[..n])?;
    }
    Ok(())
}

fn tell_room(out: &impl Print, book: Book, room: &mut [u8]) -> io::Result<()>
    requires { Good book }
{
    let reply = book.write(room);
    tell_answer(out, reply.answer)?;
    say(out, reply.value)?;
    write(out, b" ")?;
    write(out, room)
}

// A new book with the settings of a line, handed what the book writes; or the book itself where that is refused.
fn back(out: &impl Print, book: Book, line: &[u8]) -> io::Result<Book>
    requires { Good book }
    ensures { IfOk result (λ after. Good after) }
{
    let mut room = dots();
    let reply = book.write(&mut room);
    say(out, number_of(reply.answer))?;
    let n = reply.value as usize;
    if n == 0 || ROOM < n {
        return Ok(book);
    }
    write(out, b" ")?;
    hand(out, open_line(line), &room[..n])
}

fn hand(out: &impl Print, book: Book, text: &[u8]) -> io::Result<Book>
    requires { Good book }
    ensures { IfOk result (λ after. Good after) }
{
    let step = book.take(text);
    tell_answer(out, step.answer)?;
    say(out, step.moved as u64)?;
    Ok(step.book)
}
