// Runs the lines of standard input on one book, and prints what the crates `side` and `checksum` make of each:
//     K DEPTH, M DEPTH      a new book of the dialect; M1 and M2 too
//     b PRICE SIZE ..       the bids of one message: how many bids stood before the cut, and whether an entry replaced a level
//     a PRICE SIZE ..       the same for asks
//     =                     every bid and ask, then the checksum
// What is to come was worked out apart from the crates, by tools/checksum_vectors.py.
#![tactic(auto)]

ghost use Rattle.std.specs.Prelude.{◌≡◌, ◌≤◌, length, IfOk};
ghost use Rattle.edit.specs.Buffer.{buffer_words};
ghost use Rattle.level.specs.Kept.{max_levels, max_words};
ghost use Rattle.side.specs.Applying.{Given};
ghost use Rattle.checksum_vectors.specs.Book.{Valid, ValidSide};

use decimal::Decimal;
use edit::{BUFFER_WORDS, Side};
use level::{Level, Levels};
use lines::{LINE_END, find};
use reading::read_full;
use settings::SumText;
use std::io;

const BLANK: u8 = b' ';

// The longest input.
const INPUT: usize = 65536;

// A table of twenty rows: some pieces are summed by way of it, and longer ones without it.
const TABLE: usize = 5120;

// The most entries of a line.
const MAX_ENTRIES: usize = 100;

// A book: the rules of its dialect on checksums, its depth, its sides.
#[derive(Clone, Copy)]
struct Book {
    text: SumText,
    // How many levels a side are summed.
    summed: usize,
    depth: usize,
    bids: Levels,
    asks: Levels,
}

fn main(rt: HostRuntime) -> io::Result<()> {
    let mut text = [0; INPUT];
    let n = read_full(&mut rt.stdin(), &mut text)?;
    run_lines(&rt, &text[..n])
}

fn run_lines(out: &impl Print, s: &[u8]) -> io::Result<()> {
    let mut book = new_book(SumText::Stripped, 10, 10);
    // By an index: what each line keeps of the book did not close over `split_inclusive`.
    let mut at = 0;
    while at < s.len() {
        let end = find(s, at, LINE_END);
        book = run_line(out, book, &s[at..end])?;
        at = end + 1;
    }
    Ok(())
}

fn new_book(text: SumText, summed: usize, depth: usize) -> Book
    requires { depth ≤ 100 }
    ensures { Valid result }
{
    Book {
        text,
        summed,
        depth,
        bids: level::empty(),
        asks: level::empty(),
    }
}

fn run_line(out: &impl Print, book: Book, s: &[u8]) -> io::Result<Book>
    requires { Valid book }
    ensures { IfOk result (λ after. Valid after) }
{
    if s.is_empty() {
        say(out, b"no line\n")?;
        return Ok(book);
    }
    match s[0] {
        b'K' => start(out, SumText::Stripped, 10, s),
        b'M' => start(out, SumText::Interleaved, edition_sum(s), s),
        b'b' => with_side(out, book, Side::Bids, s),
        b'a' => with_side(out, book, Side::Asks, s),
        _ => {
            show(out, book)?;
            Ok(book)
        }
    }
}

// The book after a message's entries for one side.
fn with_side(out: &impl Print, mut book: Book, side: Side, s: &[u8]) -> io::Result<Book>
    requires { Valid book }
    ensures { IfOk result (λ after. Valid after) }
{
    match side {
        Side::Bids => book.bids = run_side(out, book.bids, side, book.text, book.depth, s)?,
        Side::Asks => book.asks = run_side(out, book.asks, side, book.text, book.depth, s)?,
    }
    Ok(book)
}

// A new book of the depth that a line gives, or 10 where it gives none up to 100.
fn start(out: &impl Print, text: SumText, summed: usize, s: &[u8]) -> io::Result<Book>
    ensures { IfOk result (λ after. Valid after) }
{
    let end = find(s, 0, BLANK);
    let depth = read_depth(s, end);
    if end < s.len() {
        say(out, &s[..end])?;
    }
    say(out, b" ")?;
    say_number(out, depth as u64)?;
    say(out, b"\n")?;
    Ok(new_book(text, summed, depth))
}

// M2 sums 25 levels a side, M and M1 all.
fn edition_sum(s: &[u8]) -> usize {
    if 1 < s.len() && s[1] == b'2' { 25 } else { 100 }
}

// The depth behind the blank.
fn read_depth(s: &[u8], blank: usize) -> usize
    ensures { result ≤ 100 }
{
    if s.len() <= blank {
        return 10;
    }
    match decimal::parse_whole(&s[blank + 1..]) {
        Some(n) if n <= 100 => n as usize,
        _ => 10,
    }
}

// A side after the entries of a line.
fn run_side(
    out: &impl Print,
    levels: Levels,
    side: Side,
    text: SumText,
    depth: usize,
    s: &[u8],
) -> io::Result<Levels>
    requires { ValidSide text side levels × (depth ≤ 100) }
    ensures { IfOk result (λ after. ValidSide text side after) }
{
    let mut buffer = [0u64; BUFFER_WORDS];
    let n = read_entries(s, side, &mut buffer);
    let mut table = [0; TABLE];
    crc32::fill_table(&mut table);
    let mut words = levels.words;
    let applied = side::apply(
        &mut words,
        levels.count,
        side,
        depth,
        text,
        &buffer,
        n,
        &table,
    );
    say_number(out, applied.count as u64)?;
    say(out, if applied.replaced { b" 1\n" } else { b" 0\n" })?;
    Ok(Levels {
        words,
        count: applied.left,
    })
}

// The entries of a line put into a buffer, as many as stand there and can be read.
fn read_entries(s: &[u8], side: Side, buffer: &mut [u64; BUFFER_WORDS]) -> usize
    requires { length buffer.old ≡ buffer_words }
    ensures { Given side buffer.new result }
{
    let mut at = 1;
    for k in 0..MAX_ENTRIES {
        if s.len() <= at {
            return k;
        }
        let price_from = at + 1;
        let price_end = find(s, price_from, BLANK);
        if s.len() <= price_end {
            return k;
        }
        let size_from = price_end + 1;
        let size_end = find(s, size_from, BLANK);
        let Some(price) = decimal::parse(&s[price_from..price_end]) else {
            return k;
        };
        let Some(size) = decimal::parse(&s[size_from..size_end]) else {
            return k;
        };
        edit::put(buffer, k, side, price, size);
        at = size_end;
    }
    MAX_ENTRIES
}

fn show(out: &impl Print, book: Book) -> io::Result<()>
    requires { Valid book }
{
    say(out, b"bids")?;
    show_levels(out, book.bids)?;
    say(out, b"\nasks")?;
    show_levels(out, book.asks)?;
    say(out, b"\nsum ")?;
    say_number(out, sum_of(book) as u64)?;
    say(out, b"\n")
}

fn sum_of(book: Book) -> u32
    requires { Valid book }
{
    let bids = book.bids;
    let asks = book.asks;
    let mut table = [0; TABLE];
    crc32::fill_table(&mut table);
    match book.text {
        SumText::Stripped => checksum::k_checksum(
            book.summed,
            &bids.words,
            bids.count,
            &asks.words,
            asks.count,
            &table,
        ),
        SumText::Interleaved => checksum::m_checksum(
            book.summed,
            &bids.words,
            bids.count,
            &asks.words,
            asks.count,
            &table,
        ),
    }
}

fn show_levels(out: &impl Print, levels: Levels) -> io::Result<()>
    requires { (levels.count ≤ max_levels) × (length levels.words ≡ max_words) }
{
    for i in 0..levels.count {
        show_level(out, level::level_in(&levels.words, i))?;
    }
    Ok(())
}

// Digits and code of the price, digits and code of the size.
fn show_level(out: &impl Print, level: Level) -> io::Result<()> {
    say(out, b" ")?;
    show_decimal(out, level::price_of(level))?;
    say(out, b":")?;
    show_decimal(out, level::size_of(level))
}

fn show_decimal(out: &impl Print, d: Decimal) -> io::Result<()> {
    let parts = decimal::parts_of(d);
    say_number(out, parts.digits)?;
    say(out, b"/")?;
    say_number(out, parts.code)
}

fn say(out: &impl Print, text: &[u8]) -> io::Result<()> {
    out.write_all(text)
}

fn say_number(out: &impl Print, n: u64) -> io::Result<()> {
    out.print(n)
}
