// What the entries of a message of single orders say, in the order in which they stand in it: the side, the event, and the id, price and size of an
// order. They are kept as numbers in a buffer of words that whoever takes the message owns and lends to its reader.
//
//     order_edit::put(&mut buffer, 0, Buffered { side: Side::Bids, event: Event::Add, id, price, size });
//     order_edit::entry_in(&buffer, 0).price
#![tactic(auto)]

mod id_text;

ghost use Rattle.std.specs.Prelude.{◌≡◌, ◌<◌, length, get_or};
ghost use Rattle.decimal.specs.Decimal.{number};
ghost use Rattle.decimal.specs.Limits.{Within};
ghost use Rattle.order_edit.specs.Buffer.{max_buffered, buffer_words, entries_in, no_entry, order_entry, Put, event_number, event_in};

use decimal::Decimal;
use edit::Side;
pub use id_text::{id_of, is_id};

// What an entry does to an order: puts it last at its price, changes its size, or removes it.
#[derive(Clone, Copy)]
pub enum Event {
    Add,
    Modify,
    Delete,
}

// The id of an order: up to 20 bytes, eight a word, low byte first, zeros after the last.
#[derive(Clone, Copy, PartialEq, Eq)]
pub struct Id {
    pub first: u64,
    pub second: u64,
    pub third: u64,
}

// How many entries a buffer holds: 128 for each side.
pub const MAX_BUFFERED: usize = 256;

// How many words an entry takes: the digits of the price and of the size up to the ninth decimal, one for their codes (see `decimal`), the side and
// the event, and three for the id.
pub const ENTRY_WORDS: usize = 6;

pub const BUFFER_WORDS: usize = ENTRY_WORDS * MAX_BUFFERED;

// Where the size's code, the side and the event begin in the third word; the price's code begins at 1.
const SIZE_CODE: u64 = 65_536;

const SIDE: u64 = 4_294_967_296;

const EVENT: u64 = 2;

// An entry that is in a buffer.
#[derive(Clone, Copy)]
pub struct Buffered {
    pub side: Side,
    pub event: Event,
    pub id: Id,
    pub price: Decimal,
    pub size: Decimal,
}

// Puts an entry at place k of the buffer. Past its end nothing is put: a message with so many entries has too many for one side.
pub fn put(buffer: &mut [u64; BUFFER_WORDS], k: usize, entry: Buffered)
    requires { (length buffer.old ≡ buffer_words) × Within (number entry.price) × Within (number entry.size) }
    ensures { Put buffer.old k (order_entry entry) buffer.new }
{
    if k < MAX_BUFFERED {
        let p = decimal::parts_of(entry.price);
        let s = decimal::parts_of(entry.size);
        let side = entry.side;
        let event = entry.event;
        let marks = edit::side_number(side) + EVENT * event_number(event);
        let codes = p.code + SIZE_CODE * s.code;
        let at = ENTRY_WORDS * k;
        buffer[at] = p.digits;
        buffer[at + 1] = s.digits;
        buffer[at + 2] = codes + SIDE * marks;
        buffer[at + 3] = entry.id.first;
        buffer[at + 4] = entry.id.second;
        buffer[at + 5] = entry.id.third;
    }
}

// The entry at place k of the buffer.
pub fn entry_in(buffer: &[u64; BUFFER_WORDS], k: usize) -> Buffered
    requires { (k < max_buffered) × (length buffer.now ≡ buffer_words) }
    ensures { order_entry result ≡ get_or (entries_in buffer.now) k no_entry }
{
    let at = ENTRY_WORDS * k;
    let rest = buffer[at + 2];
    let price = decimal::of_parts(buffer[at], rest % SIZE_CODE);
    let size = decimal::of_parts(buffer[at + 1], rest / SIZE_CODE % SIZE_CODE);
    let marks = rest / SIDE;
    Buffered {
        side: edit::side_in(marks % EVENT),
        event: event_in(marks / EVENT),
        id: Id {
            first: buffer[at + 3],
            second: buffer[at + 4],
            third: buffer[at + 5],
        },
        price,
        size,
    }
}

fn event_number(event: Event) -> u64
    ensures { result ≡ event_number event }
{
    match event {
        Event::Add => 0,
        Event::Modify => 1,
        Event::Delete => 2,
    }
}

fn event_in(n: u64) -> Event
    ensures { result ≡ event_in n }
{
    match n {
        0 => Event::Add,
        1 => Event::Modify,
        _ => Event::Delete,
    }
}
