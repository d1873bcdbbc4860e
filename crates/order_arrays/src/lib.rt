// An array of orders of a message, read once, where it lies. What each order says goes into a buffer that is lent, in the order of the message;
// what was met is counted. Whether the message is a snapshot or an update may stand behind its orders, so that both are told.
//
//     let read = order_arrays::orders_at(s, at, depth, Side::Bids, order_arrays::none_yet(), &mut buffer);
//     order_edit::entry_in(&buffer, 0)     // the first of them, if read.tally.bids is not 0
#![tactic(auto)]

ghost use Rattle.std.specs.Prelude.{◌≡◌, true, false, ◌+◌, ◌≤◌, ◌<◌, ◌^◌, length};
ghost use Rattle.order_edit.specs.Buffer.{buffer_words};
ghost use Rattle.order_entries.specs.Collected.{Laid};
ghost use Rattle.order_arrays.specs.Tally.{none_yet, not_orders, told_not, or_else, counted, CountedAt, Met};

use edit::Side;
use json_tokens::{OPEN_ARRAY, array_close_end, comma_end, skip_blanks};
use json_values::value_end;
use order_edit::{BUFFER_WORDS, put};
use order_entries::{OrderPlace, order_place, read_order};
use text::byte_at;

// What was met of the orders of a message so far.
#[derive(Clone, Copy)]
pub struct OrderTally {
    pub bids: usize,
    pub asks: usize,
    // Where the first bad text of an update begins: a price that is no decimal or zero, a quantity that is no decimal, or zero unless the order is
    // deleted. 0 where there is none.
    pub broken_at: usize,
    // The same of a snapshot, which passes events over: a quantity of zero is bad.
    pub strict_at: usize,
    // Whether each order had an event, which an update needs.
    pub events: bool,
    // Whether all that was met were arrays of orders. If not, the rest says nothing.
    pub well_formed: bool,
}

// What was met once the value at a position was read.
#[derive(Clone, Copy)]
pub struct Orders {
    // Past the value, or 0 where it is not JSON.
    pub end: usize,
    pub tally: OrderTally,
}

// No order was met yet.
pub fn none_yet() -> OrderTally
    ensures { result ≡ none_yet }
{
    OrderTally {
        bids: 0,
        asks: 0,
        broken_at: 0,
        strict_at: 0,
        events: true,
        well_formed: true,
    }
}

// The value at `at` as an array of orders of one side, after those that were met before. They are put into the buffer behind these.
// `depth` is how deep arrays and objects may nest in what is read.
pub fn orders_at(
    s: &[u8],
    at: usize,
    depth: usize,
    side: Side,
    before: OrderTally,
    buffer: &mut [u64; BUFFER_WORDS],
) -> Orders
    requires { (2 ≤ depth) × (before.bids + before.asks ≤ at) × (length buffer.old ≡ buffer_words) }
    ensures { Met s.now depth side before at buffer.old buffer.new result }
{
    if byte_at(s, at) != OPEN_ARRAY {
        return told_not(value_end(s, at, depth).unwrap_or(0));
    }
    if let Some(end) = array_close_end(s, at + 1) {
        return Orders { end, tally: before };
    }
    let mut i = skip_blanks(s, at + 1);
    let mut tally = before;
    loop {
        let found = order_place(s, i, depth - 1);
        let past = found.end;
        if past == 0 {
            return told_not(0);
        }
        let more = with_order(s, found, side, tally, buffer);
        let Some(next) = comma_end(s, past) else {
            let Some(end) = array_close_end(s, past) else {
                return told_not(0);
            };
            return Orders { end, tally: more };
        };
        tally = more;
        i = next;
    }
}

// What was met, and the order that was found more.
fn with_order(
    s: &[u8],
    found: OrderPlace,
    side: Side,
    before: OrderTally,
    buffer: &mut [u64; BUFFER_WORDS],
) -> OrderTally
    requires { Laid s.now found × (before.bids + before.asks < 2 ^ 63) × (length buffer.old ≡ buffer_words) }
    ensures { CountedAt s.now side before found buffer.old buffer.new result }
{
    if !found.well_formed {
        return not_orders();
    }
    if !before.well_formed {
        return before;
    }
    let read = read_order(s, side, found);
    put(buffer, before.bids + before.asks, read.entry);
    count(
        before,
        side,
        found.event.is_some(),
        read.broken_at,
        read.strict_at,
    )
}

// One order more, which has an event or not, and whose first bad text begins at `broken` in an update and at `strict` in a snapshot.
fn count(before: OrderTally, side: Side, event: bool, broken: usize, strict: usize) -> OrderTally
    requires { before.bids + before.asks < 2 ^ 63 }
    ensures { result ≡ counted before side event broken strict }
{
    let mut tally = before;
    match side {
        Side::Bids => {
            tally.bids += 1;
        }
        Side::Asks => {
            tally.asks += 1;
        }
    }
    tally.broken_at = or_else(before.broken_at, broken);
    tally.strict_at = or_else(before.strict_at, strict);
    tally.events = before.events && event;
    tally
}

// A position that is known, or else the next one; 0 is none.
#[tactic(auto, using(std::proofs::lemmas::Bool::Decides::nat_tests), unfolding(crate::specs::Tally::or_else))]
fn or_else(known: usize, next: usize) -> usize
    ensures { result ≡ or_else known next }
{
    if known == 0 { next } else { known }
}

// A value that ends at `end` and is no array of orders.
fn told_not(end: usize) -> Orders
    ensures { result ≡ told_not end }
{
    Orders {
        end,
        tally: not_orders(),
    }
}

fn not_orders() -> OrderTally
    ensures { result ≡ not_orders }
{
    OrderTally {
        bids: 0,
        asks: 0,
        broken_at: 0,
        strict_at: 0,
        events: false,
        well_formed: false,
    }
}
