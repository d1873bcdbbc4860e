// A feed: line 1 opens a book, and every later line is a message to it.
//
// A feed that comes in blocks is answered by `start`, `answer` for each block and `finish`; `process_lines` hands the lines of a text to a
// book that is open already.
//
//     let mut stream = feed::start();
//     let block = feed::answer(stream, input, got, table, buffer);     // the replies are &buffer[..block.written]
#![tactic(auto)]

ghost use Rattle.crc32.specs.Table.{ShiftTable};
ghost use Rattle.line_text.specs.Opening.{line_one};
ghost use Rattle.book.specs.Shown.{Good, Opened, shows};
ghost use Rattle.feed.specs.Feed.{ProcessedLines, max_reply};
ghost use Rattle.feed.specs.Stream.{Holds, Started, AnsweredBlock, Finished, AnsweredLines, state_of, book_open};
ghost use Rattle.std.specs.Prelude.{◌+◌, ◌≤◌, ◌<◌, length};

use book::{Book, join};
use line_text::MAX_REPLY;
use lines::{LINE_END, find};
use reference::Scope;

// A book after some lines: where the next line begins, and how many bytes of replies were laid.
#[derive(Clone, Copy)]
pub struct Processed {
    pub book: Book,
    pub next: usize,
    pub written: usize,
}

// The book that line 1 opens.
pub fn open(line: &[u8]) -> Book
    ensures { Opened (line_one line.now) result }
{
    let first = line_text::read_settings(line);
    book::open(first.dialect, first.depth, &line[first.name..])
}

// Hands a book the lines that end in a text, as long as the buffer has room for the longest reply, and lays the
// replies into it from its front. Checksums are summed by way of the table, which `crc32::fill_table` filled; one of no entries will do.
pub fn process_lines(book: Book, s: &[u8], table: &[u32], buffer: &mut [u8]) -> Processed
    requires { Good book × ShiftTable table.now }
    ensures { ProcessedLines s.now (shows book) buffer.old result buffer.new }
{
    let parts = book.split();
    let mut bids = parts.bids;
    let mut asks = parts.asks;
    let mut header = parts.header;
    let mut next = 0;
    let mut written = 0;
    while MAX_REPLY <= buffer.len() - written {
        let end = find(s, next, LINE_END);
        if s.len() <= end {
            return Processed {
                book: join(bids, asks, header),
                next,
                written,
            };
        }
        let answered = header.take(&mut bids, &mut asks, &s[next..end], table);
        header = answered.header;
        let counts = header.counts(Scope::Current);
        let live = answer::number_of(counts.answer) == 0;
        written = line_text::write_reply(
            answered.answer,
            live,
            counts.bids,
            counts.asks,
            buffer,
            written,
        );
        next = end + 1;
    }
    Processed {
        book: join(bids, asks, header),
        next,
        written,
    }
}

// ---- a feed that comes in blocks

// What is carried over of a line: as much as shows that it is too long for a message.
const CARRIED: usize = message::MAX_MESSAGE + 1;

// A feed between two calls: the book, which is shut as long as line 1 has not opened it, and where in the input buffer the bytes
// stand that were read and are not answered.
#[derive(Clone, Copy)]
pub struct Stream {
    pub book: Book,
    pub from: usize,
    pub to: usize,
    pub opened: bool,
}

// A feed after some replies, how many bytes they have, and whether the buffer has no room for a further one, so that lines may be left.
#[derive(Clone, Copy)]
pub struct Block {
    pub stream: Stream,
    pub written: usize,
    pub more: bool,
}

// Nothing is read yet.
pub fn start() -> Stream
    ensures { Started result }
{
    Stream {
        book: open(b""),
        from: 0,
        to: 0,
        opened: false,
    }
}

// Takes in `got` bytes that were read into the input buffer behind those that the feed has there, and lays replies to the lines
// that end, as long as the buffer has room for the longest reply. If it still has, no line is left, and the unfinished one is moved to
// the front.
pub fn answer(
    stream: Stream,
    input: &mut [u8],
    got: usize,
    table: &[u32],
    buffer: &mut [u8],
) -> Block
    requires { Holds stream input.old × (stream.to + got ≤ length input.old) × ShiftTable table.now }
    ensures { AnsweredBlock stream input.old got buffer.old result input.new buffer.new }
{
    let from = stream.from;
    let to = stream.to + got;
    let book = stream.book;
    let answered = answer_lines(book, stream.opened, &input[from..to], table, buffer);
    let written = answered.written;
    let next = from + answered.next;
    let after = answered.book;
    if buffer.len() - written < MAX_REPLY {
        return Block {
            stream: Stream {
                book: after,
                from: next,
                to,
                opened: answered.opened,
            },
            written,
            more: true,
        };
    }
    let held = lines::move_to_front(input, next, to, CARRIED);
    Block {
        stream: Stream {
            book: after,
            from: 0,
            to: held,
            opened: answered.opened,
        },
        written,
        more: false,
    }
}

// At the end of the input: lays the reply to the last line, if it has no line end and isn't empty, and answers how many bytes it has.
// A line end stands behind that line while it is answered.
pub fn finish(stream: Stream, input: &mut [u8], table: &[u32], buffer: &mut [u8]) -> usize
    requires { Holds stream input.old × (stream.to < length input.old) × (max_reply ≤ length buffer.old) × ShiftTable table.now }
    ensures { Finished stream input.old buffer.old result input.new buffer.new }
{
    let from = stream.from;
    let to = stream.to;
    if to == from {
        return 0;
    }
    let behind = input[to];
    input[to] = LINE_END;
    let end = to + 1;
    let book = stream.book;
    let answered = answer_lines(book, stream.opened, &input[from..end], table, buffer);
    input[to] = behind;
    answered.written
}

// A book after some lines: where the next line begins, how many bytes of replies were laid, whether line 1 was among them or before.
#[derive(Clone, Copy)]
struct Answered {
    book: Book,
    next: usize,
    written: usize,
    opened: bool,
}

// Line 1, if it was not read yet, and the messages after it.
fn answer_lines(book: Book, opened: bool, s: &[u8], table: &[u32], buffer: &mut [u8]) -> Answered
    requires { Good book × ShiftTable table.now }
    ensures { AnsweredLines s.now 0 (state_of opened (shows book)) book buffer.old result buffer.new }
{
    if opened {
        return answer_from(book, s, 0, table, buffer);
    }
    let end = find(s, 0, LINE_END);
    if s.len() <= end {
        return Answered {
            book,
            next: 0,
            written: 0,
            opened: false,
        };
    }
    answer_from(open(&s[..end]), s, end + 1, table, buffer)
}

// The messages from a position on.
fn answer_from(book: Book, s: &[u8], from: usize, table: &[u32], buffer: &mut [u8]) -> Answered
    requires { Good book × (from ≤ length s.now) × ShiftTable table.now }
    ensures { AnsweredLines s.now from (book_open (shows book)) book buffer.old result buffer.new }
{
    let processed = process_lines(book, &s[from..], table, buffer);
    let after = processed.book;
    Answered {
        book: after,
        next: from + processed.next,
        written: processed.written,
        opened: true,
    }
}
