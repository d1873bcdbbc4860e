// An order book: opened, handed messages, asked questions, written out.
//
//     let mut book = book::open(Dialect::K, 10, name);
//     let step = book.take(message);
//     book = step.book;
//     let best = book.level(Scope::Current, Side::Bids, 0);
//
// A method takes the book by value and hands it back with its answer. Who hands a book many messages lends it the words of its
// sides and a table to sum by instead, and passes only its header:
//
//     let parts = book.split();                          // `bids`, `asks` and `header`
//     let answered = header.take(&mut bids, &mut asks, message, table);
//     book = book::join(bids, asks, answered.header);
#![tactic(auto)]

mod taking;
mod writing;

ghost use Rattle.std.specs.Prelude.{◌≡◌};
ghost use Rattle.lifecycle.specs.Lifecycle.{counts_of};
ghost use Rattle.crc32.specs.Table.{ShiftTable};
ghost use Rattle.reference.specs.Reference.{receive, which_number, how_many_updates};
ghost use Rattle.book.specs.Shown.{shows, book_of, header_of, parts_of, Good, Opened, Received, ReceivedIn, AnswersCounts, AnswersLevel, AnswersAmount, Wrote};
ghost use Rattle.book.specs.Asking.{level_in, told, WithoutLevel};

use answer::Answer;
use decimal::Decimal;
use edit::Side;
use level::{Level, Levels, MAX_WORDS};
use lifecycle::{Counts, Lifecycle, count_levels, first_state, refusal, stands};
use reference::Scope;
use settings::{Dialect, Settings};

#[derive(Clone, Copy)]
pub struct Book {
    bids: Levels,
    asks: Levels,
    settings: Settings,
    // The sequence number.
    number: u64,
    // How many updates were taken since the last snapshot.
    updates: u64,
    lifecycle: Lifecycle,
}

// A book but for the words of its sides.
#[derive(Clone, Copy)]
pub struct Header {
    // How many bids and asks there are.
    bids: usize,
    asks: usize,
    settings: Settings,
    number: u64,
    updates: u64,
    lifecycle: Lifecycle,
}

// A book taken apart: the words of its sides, and its header.
#[derive(Clone, Copy)]
pub struct BookParts {
    pub bids: [u64; MAX_WORDS],
    pub asks: [u64; MAX_WORDS],
    pub header: Header,
}

// The answer to a message, where the words of the sides are lent, and how many levels it moved.
#[derive(Clone, Copy)]
pub struct Answered {
    pub header: Header,
    pub answer: Answer,
    pub moved: usize,
}

// The answer to a message, and how many levels it moved: 0 where it is refused.
#[derive(Clone, Copy)]
pub struct Step {
    pub book: Book,
    pub answer: Answer,
    pub moved: usize,
}

// How many bids and asks there are.
#[derive(Clone, Copy)]
pub struct CountsReply {
    pub book: Book,
    pub answer: Answer,
    pub bids: usize,
    pub asks: usize,
}

// A level of a side.
#[derive(Clone, Copy)]
pub struct LevelReply {
    pub book: Book,
    pub answer: Answer,
    pub price: Decimal,
    pub size: Decimal,
}

// A sequence number, a count of updates, or a length.
#[derive(Clone, Copy)]
pub struct NumberReply {
    pub book: Book,
    pub answer: Answer,
    pub value: u64,
}

// A book with these settings: waiting, or shut where they are bad.
pub fn open(dialect: Dialect, depth: usize, name: &[u8]) -> Book
    ensures { Opened (record { dialect = dialect; depth = depth; name = name.now }) result }
{
    let settings = settings::choose(dialect, depth, name);
    let dialect = settings.dialect;
    let none = level::empty();
    Book {
        bids: none,
        asks: none,
        settings,
        number: 0,
        updates: 0,
        lifecycle: Lifecycle {
            state: first_state(dialect),
            had_snapshot: false,
        },
    }
}

// The book of a header and the words of its sides.
pub fn join(bids: [u64; MAX_WORDS], asks: [u64; MAX_WORDS], header: Header) -> Book
    ensures { result ≡ book_of bids asks header }
{
    let settings = header.settings;
    let lifecycle = header.lifecycle;
    Book {
        bids: Levels {
            words: bids,
            count: header.bids,
        },
        asks: Levels {
            words: asks,
            count: header.asks,
        },
        settings,
        number: header.number,
        updates: header.updates,
        lifecycle,
    }
}

impl Header {
    // The book after a message, in the words that are lent: the first bids and asks of them are the book's, and those past them stay
    // as they are. A refusal leaves every word as it was. The checksum is summed by way of the table, which `crc32::fill_table` filled;
    // one of no entries will do.
    pub fn take(
        self,
        bids: &mut [u64; MAX_WORDS],
        asks: &mut [u64; MAX_WORDS],
        s: &[u8],
        table: &[u32],
    ) -> Answered
        requires { Good (book_of bids.old asks.old self) × ShiftTable table.now }
        ensures { ReceivedIn (book_of bids.old asks.old self) s.now bids.new asks.new result }
    {
        taking::receive(self, bids, asks, s, table)
    }

    // How many bids and asks there are: what every good book with this header answers, whatever its words are (law `counts-told`).
    pub fn counts(self, scope: Scope) -> Counts
        ensures { result ≡ counts_of self.lifecycle scope self.bids self.asks }
    {
        let lifecycle = self.lifecycle;
        count_levels(lifecycle, scope, self.bids, self.asks)
    }
}

impl Book {
    // The book taken apart; `join` puts it together again.
    pub fn split(self) -> BookParts
        ensures { result ≡ parts_of self }
    {
        let bids = self.bids.words;
        let asks = self.asks.words;
        BookParts {
            bids,
            asks,
            header: self.header(),
        }
    }

    // The book but for the words of its sides.
    fn header(self) -> Header
        ensures { result ≡ header_of self }
    {
        let settings = self.settings;
        let lifecycle = self.lifecycle;
        Header {
            bids: self.bids.count,
            asks: self.asks.count,
            settings,
            number: self.number,
            updates: self.updates,
            lifecycle,
        }
    }

    // The book after a message.
    pub fn take(self, s: &[u8]) -> Step
        requires { Good self }
        ensures { Received (receive (shows self) s.now) result }
    {
        let mut bids = self.bids.words;
        let mut asks = self.asks.words;
        let none = [0; 1];
        let answered = self.header().take(&mut bids, &mut asks, s, &none[..0]);
        let header = answered.header;
        let answer = answered.answer;
        Step {
            book: join(bids, asks, header),
            answer,
            moved: answered.moved,
        }
    }

    // How many bids and asks there are.
    pub fn counts(self, scope: Scope) -> CountsReply
        requires { Good self }
        ensures { AnswersCounts self scope result }
    {
        let counts = self.header().counts(scope);
        let answer = counts.answer;
        CountsReply {
            book: self,
            answer,
            bids: counts.bids,
            asks: counts.asks,
        }
    }

    // Level i of a side, counted from 0 as best.
    pub fn level(self, scope: Scope, side: Side, i: usize) -> LevelReply
        requires { Good self }
        ensures { AnswersLevel self scope side i result }
    {
        let lifecycle = self.lifecycle;
        if stands(lifecycle, scope) {
            return match level_in(self, side, i) {
                Some(level) => LevelReply {
                    book: self,
                    answer: Answer::Taken,
                    price: level::price_of(level),
                    size: level::size_of(level),
                },
                None => no_level(self, Answer::NoLevel),
            };
        }
        no_level(self, refusal(lifecycle))
    }

    // The sequence number.
    pub fn number(self, scope: Scope) -> NumberReply
        requires { Good self }
        ensures { AnswersAmount self (which_number scope) result }
    {
        let (answer, value) = self.told(scope, self.number);
        NumberReply {
            book: self,
            answer,
            value,
        }
    }

    // How many updates were taken since the last snapshot.
    pub fn updates(self, scope: Scope) -> NumberReply
        requires { Good self }
        ensures { AnswersAmount self (how_many_updates scope) result }
    {
        let (answer, value) = self.told(scope, self.updates);
        NumberReply {
            book: self,
            answer,
            value,
        }
    }

    // What the book tells of a number of its own: the answer and the number, or 0 where the question is refused. The caller makes the reply, so that the
    // book is copied once.
    #[tactic(auto, unfolding(crate::specs::Asking::told))]
    fn told(&self, scope: Scope, value: u64) -> (Answer, u64)
        ensures { record { book = self.now; answer = result.0; value = result.1 } ≡ told self.now scope value }
    {
        let lifecycle = self.lifecycle;
        if stands(lifecycle, scope) {
            (Answer::Taken, value)
        } else {
            (refusal(lifecycle), 0)
        }
    }

    // Writes the book as a snapshot at the start of the buffer; answers its length.
    pub fn write(self, buffer: &mut [u8]) -> NumberReply
        requires { Good self }
        ensures { Wrote self buffer.old buffer.new result }
    {
        let lifecycle = self.lifecycle;
        if stands(lifecycle, Scope::Current) {
            return match writing::lay(self, buffer) {
                Some(n) => NumberReply {
                    book: self,
                    answer: Answer::Taken,
                    value: n as u64,
                },
                None => no_value(self, Answer::NoRoom),
            };
        }
        no_value(self, refusal(lifecycle))
    }
}

fn level_in(book: Book, side: Side, i: usize) -> Option<Level>
    requires { Good book }
    ensures { result ≡ level_in book side i }
{
    let bids = book.bids;
    let asks = book.asks;
    match side {
        Side::Bids => level::level_at(bids, i),
        Side::Asks => level::level_at(asks, i),
    }
}

fn no_level(book: Book, answer: Answer) -> LevelReply
    ensures { WithoutLevel book answer result }
{
    LevelReply {
        book,
        answer,
        price: decimal::zero(),
        size: decimal::zero(),
    }
}

fn no_value(book: Book, answer: Answer) -> NumberReply
    ensures { result ≡ record { book = book; answer = answer; value = 0 } }
{
    NumberReply {
        book,
        answer,
        value: 0,
    }
}
