// The `data` of a message of dialect L, an array of one object, read in one walk over its bytes: whether it is JSON, and all that the checks of a
// message need of it. Each member is read once, whatever its name, and added to what was met before.
#![tactic(auto)]

ghost use Rattle.std.specs.Prelude.{◌≡◌, ◌&&◌, ◌≤◌, length};
ghost use Rattle.text.specs.Text.{ascii};
ghost use Rattle.json_values.specs.Names.{means};
ghost use Rattle.layout.specs.MemberSpans.{member_at};
ghost use Rattle.order_edit.specs.Buffer.{buffer_words};
ghost use Rattle.order_arrays.specs.Tally.{met as count};
ghost use Rattle.message_l.specs.Orders.{orders_depth};
ghost use Rattle.message_l.specs.Collected.{no_sides, no_listing, listing_end, MoreSides, MoreListing, ObjectRead, not_one, OneRead, DataRead};

use edit::Side;
use json_tokens::{
    OPEN_ARRAY, OPEN_OBJECT, array_close_end, colon_end, comma_end, object_close_end, skip_blanks,
    string_end,
};
use json_values::{is_name, item_end, value_end};
use layout::{ITEM_DEPTH, MemberSpan, SIDE_DEPTH, few_more, no_member_span};
use order_arrays::{OrderTally, none_yet, orders_at};
use order_edit::BUFFER_WORDS;
use order_entries::more_spans;
use text::byte_at;

// How deep arrays and objects may nest in the object in `data`, and in a member of it, as a side's array of orders is one.
const OBJECT_DEPTH: usize = SIDE_DEPTH;

const ORDERS_DEPTH: usize = OBJECT_DEPTH - 1;

// The sides that were met.
#[derive(Clone, Copy)]
pub struct Sides {
    // Past the value of the last member, whatever its name, or 0 where it is not JSON.
    pub end: usize,
    // How often `bids` and `asks` were met: 0, 1, or 2 for more often.
    pub bids: usize,
    pub asks: usize,
    // The orders that these hold.
    pub tally: OrderTally,
}

// The members of the object in `data` that were met.
#[derive(Clone, Copy)]
pub struct Listing {
    pub sides: Sides,
    pub symbol: MemberSpan,
    pub checksum: MemberSpan,
    // Whether some `symbol` is the book's name.
    pub named: bool,
}

// The value of a member `data`.
#[derive(Clone, Copy)]
pub struct Data {
    // Past the value, or 0 where it is not JSON.
    pub end: usize,
    // Whether it is an array of one object. If not, the rest says nothing.
    pub one: bool,
    pub listing: Listing,
}

// The value at `at`, as that of a member `data` of a message to a book of that name. Its orders go into the buffer.
pub fn l_data(s: &[u8], at: usize, name: &[u8], buffer: &mut [u64; BUFFER_WORDS]) -> Data
    requires { length buffer.old ≡ buffer_words }
    ensures { DataRead name.now s.now at buffer.new result }
{
    match one_element(s, at, name, buffer) {
        Some(data) => data,
        None => not_one(value_end(s, at, ITEM_DEPTH).unwrap_or(0)),
    }
}

// The same, if the value is an array of one.
fn one_element(s: &[u8], at: usize, name: &[u8], buffer: &mut [u64; BUFFER_WORDS]) -> Option<Data>
    requires { length buffer.old ≡ buffer_words }
    ensures { OneRead name.now s.now at buffer.new result }
{
    if byte_at(s, at) != OPEN_ARRAY || array_close_end(s, at + 1).is_some() {
        return None;
    }
    let first = skip_blanks(s, at + 1);
    let listing = l_object(s, first, name, buffer);
    let past = listing.sides.end;
    if past == 0 || comma_end(s, past).is_some() {
        return None;
    }
    let end = array_close_end(s, past)?;
    let one = byte_at(s, first) == OPEN_OBJECT;
    Some(Data { end, one, listing })
}

// A value that ends at `end` and is no array of one.
fn not_one(end: usize) -> Data
    ensures { result ≡ not_one end }
{
    Data {
        end,
        one: false,
        listing: no_listing(0),
    }
}

// The value at `at`, as the object in `data` of a message to a book of that name. Its orders go into the buffer.
pub fn l_object(s: &[u8], at: usize, name: &[u8], buffer: &mut [u64; BUFFER_WORDS]) -> Listing
    requires { length buffer.old ≡ buffer_words }
    ensures { ObjectRead name.now s.now at buffer.new result }
{
    if byte_at(s, at) != OPEN_OBJECT {
        return no_listing(value_end(s, at, OBJECT_DEPTH).unwrap_or(0));
    }
    if let Some(end) = object_close_end(s, at + 1) {
        return no_listing(end);
    }
    let mut i = skip_blanks(s, at + 1);
    let mut met = no_listing(0);
    loop {
        let Some(name_to) = string_end(s, i) else {
            return no_listing(0);
        };
        let Some(from) = colon_end(s, name_to) else {
            return no_listing(0);
        };
        let next = more_listing(s, met, i, name_to, from, name, buffer);
        let to = next.sides.end;
        if to == 0 {
            return no_listing(0);
        }
        let Some(j) = comma_end(s, to) else {
            let Some(end) = object_close_end(s, to) else {
                return no_listing(0);
            };
            return listing_end(next, end);
        };
        met = next;
        i = j;
    }
}

// One member more, whose name lies from `first` to `past`, and whose value begins at `from`.
fn more_listing(
    s: &[u8],
    met: Listing,
    first: usize,
    past: usize,
    from: usize,
    name: &[u8],
    buffer: &mut [u64; BUFFER_WORDS],
) -> Listing
    requires { (count met.sides.tally ≤ from) × (length buffer.old ≡ buffer_words) }
    ensures { MoreListing name.now s.now met (member_at orders_depth s.now first past from) buffer.old buffer.new result }
{
    let sides = more_sides(s, met.sides, first, past, from, buffer);
    let to = sides.end;
    Listing {
        sides,
        symbol: more_spans(s, b"symbol", met.symbol, first, past, from, to),
        checksum: more_spans(s, b"checksum", met.checksum, first, past, from, to),
        named: met.named || is_symbol(s, first, past, from, to, name),
    }
}

// Whether the member is a `symbol` that is the book's name.
fn is_symbol(s: &[u8], first: usize, past: usize, from: usize, to: usize, name: &[u8]) -> bool
    ensures { result ≡ (means s.now (record { from = first; to = past }) (ascii "symbol") && means s.now (record { from = from; to = to }) name.now) }
{
    is_name(s, first, past, b"symbol") && is_name(s, from, to, name)
}

// The sides, and one member more, whose value is read here, whatever its name.
fn more_sides(
    s: &[u8],
    met: Sides,
    first: usize,
    past: usize,
    from: usize,
    buffer: &mut [u64; BUFFER_WORDS],
) -> Sides
    requires { (count met.tally ≤ from) × (length buffer.old ≡ buffer_words) }
    ensures { MoreSides s.now met (member_at orders_depth s.now first past from) buffer.old buffer.new result }
{
    if is_name(s, first, past, b"bids") {
        let read = orders_at(s, from, ORDERS_DEPTH, Side::Bids, met.tally, buffer);
        let tally = read.tally;
        return Sides {
            end: read.end,
            bids: few_more(met.bids),
            asks: met.asks,
            tally,
        };
    }
    if is_name(s, first, past, b"asks") {
        let read = orders_at(s, from, ORDERS_DEPTH, Side::Asks, met.tally, buffer);
        let tally = read.tally;
        return Sides {
            end: read.end,
            bids: met.bids,
            asks: few_more(met.asks),
            tally,
        };
    }
    Sides {
        end: item_end(s, from, ORDERS_DEPTH).unwrap_or(0),
        ..met
    }
}

// An object that ends at `end`, with the members that were met in it.
fn listing_end(met: Listing, end: usize) -> Listing
    ensures { result ≡ listing_end end met }
{
    Listing {
        sides: Sides { end, ..met.sides },
        ..met
    }
}

// A value that ends at `end` and has none of our members.
fn no_listing(end: usize) -> Listing
    ensures { result ≡ no_listing end }
{
    Listing {
        sides: Sides {
            end,
            bids: 0,
            asks: 0,
            tally: none_yet(),
        },
        symbol: no_member_span(),
        checksum: no_member_span(),
        named: false,
    }
}
