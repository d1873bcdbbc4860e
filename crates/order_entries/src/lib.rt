// An order of a message, read once, where it lies: an object with an id, a price, a quantity and perhaps an event, in any order.
//
// Any position may be asked for. The answer has the position past the value there, whatever it is, or 0 where it is not JSON, so that one walk
// over a message finds out whether it is JSON and reads it. `depth` is how deep arrays and objects may nest in what is read.
//
//     let found = order_entries::order_place(s, at, depth);
//     found.well_formed                                           // whether an order stands there
//     order_entries::read_order(s, Side::Bids, found).entry       // what it says
#![tactic(auto)]

mod saying;

ghost use Rattle.std.specs.Prelude.{◌≡◌, ◌≤◌, None};
ghost use Rattle.json_values.specs.Names.{inner};
ghost use Rattle.layout.specs.MemberSpans.{with_member_span, on_member};
ghost use Rattle.order_edit.specs.Ids.{is_id};
ghost use Rattle.order_entries.specs.Collected.{order_place_of, order_place_at, no_members, more_members, once_string, event_of, place_in, Placed, Inside, Found};

use json_tokens::{
    OPEN_OBJECT, QUOTE, colon_end, comma_end, object_close_end, skip_blanks, string_end,
};
use json_values::{is_name, value_end};
use layout::{MemberSpan, no_member_span, with_member_span};
use order_edit::{Buffered, Event, is_id};
pub use saying::read_order;
use text::byte_at;

// What stands at a position, as an order.
#[derive(Clone, Copy)]
pub struct OrderPlace {
    // Past the value, or 0 where it is not JSON.
    pub end: usize,
    // Where the texts of the id, the price and the quantity lie, quotes included.
    pub id_from: usize,
    pub id_to: usize,
    pub price_from: usize,
    pub price_to: usize,
    pub size_from: usize,
    pub size_to: usize,
    // The event that it names, if it names one.
    pub event: Option<Event>,
    // Whether the value is an order. If not, the positions of the texts are 0.
    pub well_formed: bool,
}

// What an order says.
#[derive(Clone, Copy)]
pub struct OrderRead {
    pub entry: Buffered,
    // Where its first text begins that check 8 refuses in an update, or 0: a price that is no decimal or zero, a quantity that is no decimal, or
    // zero unless the order is deleted.
    pub broken_at: usize,
    // The same in a snapshot, which passes events over.
    pub strict_at: usize,
}

// The members of an order that were met.
#[derive(Clone, Copy)]
struct OrderMembers {
    id: MemberSpan,
    price: MemberSpan,
    size: MemberSpan,
    event: MemberSpan,
}

// The value at `at` as an order.
pub fn order_place(s: &[u8], at: usize, depth: usize) -> OrderPlace
    requires { 1 ≤ depth }
    ensures { Found s.now (order_place_at depth s.now at) result }
{
    if byte_at(s, at) != OPEN_OBJECT {
        return no_order(value_end(s, at, depth).unwrap_or(0));
    }
    if let Some(end) = object_close_end(s, at + 1) {
        return no_order(end);
    }
    let mut i = skip_blanks(s, at + 1);
    let mut met = no_members();
    loop {
        let Some(name_to) = string_end(s, i) else {
            return no_order(0);
        };
        let Some(from) = colon_end(s, name_to) else {
            return no_order(0);
        };
        let Some(to) = value_end(s, from, depth - 1) else {
            return no_order(0);
        };
        let next = more_members(s, met, i, name_to, from, to);
        let Some(j) = comma_end(s, to) else {
            let Some(end) = object_close_end(s, to) else {
                return no_order(0);
            };
            return place_in(s, at, end, next);
        };
        met = next;
        i = j;
    }
}

// No member was met yet.
fn no_members() -> OrderMembers
    ensures { result ≡ no_members }
{
    OrderMembers {
        id: no_member_span(),
        price: no_member_span(),
        size: no_member_span(),
        event: no_member_span(),
    }
}

// One member more, whose name lies from `first` to `past`, and whose value from `from` to `to`.
fn more_members(
    s: &[u8],
    met: OrderMembers,
    first: usize,
    past: usize,
    from: usize,
    to: usize,
) -> OrderMembers
    ensures { result ≡ more_members s.now met (record { name = record { from = first; to = past }; value = record { from = from; to = to } }) }
{
    OrderMembers {
        id: more_spans(s, b"order_id", met.id, first, past, from, to),
        price: more_spans(s, b"limit_price", met.price, first, past, from, to),
        size: more_spans(s, b"order_qty", met.size, first, past, from, to),
        event: more_spans(s, b"event", met.event, first, past, from, to),
    }
}

// The members of one name, and one member more.
pub fn more_spans(
    s: &[u8],
    name: &[u8],
    mark: MemberSpan,
    first: usize,
    past: usize,
    from: usize,
    to: usize,
) -> MemberSpan
    ensures { result ≡ on_member s.now name.now with_member_span mark (record { name = record { from = first; to = past }; value = record { from = from; to = to } }) }
{
    if is_name(s, first, past, name) {
        with_member_span(mark, from, to)
    } else {
        mark
    }
}

// The order from `at` to `end` that has these members.
fn place_in(s: &[u8], at: usize, end: usize, met: OrderMembers) -> OrderPlace
    requires { Inside s.now met }
    ensures { Found s.now (place_in s.now at end met) result }
{
    let id = met.id;
    let price = met.price;
    let size = met.size;
    let strings = is_once_string(s, id) && is_once_string(s, price) && is_once_string(s, size);
    if strings && is_id_at(s, id.from, id.to) {
        return OrderPlace {
            end,
            id_from: id.from,
            id_to: id.to,
            price_from: price.from,
            price_to: price.to,
            size_from: size.from,
            size_to: size.to,
            event: event_of(s, met.event),
            well_formed: true,
        };
    }
    no_order(end)
}

// Whether a name was met once, and its value is a string.
#[tactic(auto, using(std::proofs::lemmas::Bool::Decides::nat_tests), unfolding(crate::specs::Collected::once_string, entries::specs::Places::is_string))]
fn is_once_string(s: &[u8], mark: MemberSpan) -> bool
    ensures { result ≡ once_string s.now mark }
{
    mark.times == 1 && byte_at(s, mark.from) == QUOTE
}

// Whether the string from `from` to `to`, quotes included, is an id.
fn is_id_at(s: &[u8], from: usize, to: usize) -> bool
    requires { Placed s.now from to }
    ensures { result ≡ is_id (inner s.now (record { from = from; to = to })) }
{
    if to - from < 2 {
        return false;
    }
    let first = from + 1;
    let last = to - 1;
    is_id(&s[first..last])
}

// The event that the member names, if it was met once.
fn event_of(s: &[u8], mark: MemberSpan) -> Option<Event>
    ensures { result ≡ event_of s.now mark }
{
    if mark.times != 1 {
        None
    } else if is_name(s, mark.from, mark.to, b"add") {
        Some(Event::Add)
    } else if is_name(s, mark.from, mark.to, b"modify") {
        Some(Event::Modify)
    } else if is_name(s, mark.from, mark.to, b"delete") {
        Some(Event::Delete)
    } else {
        None
    }
}

// A value that ends at `end` and is no order.
fn no_order(end: usize) -> OrderPlace
    ensures { result ≡ order_place_of end None }
{
    OrderPlace {
        end,
        id_from: 0,
        id_to: 0,
        price_from: 0,
        price_to: 0,
        size_from: 0,
        size_to: 0,
        event: None,
        well_formed: false,
    }
}
