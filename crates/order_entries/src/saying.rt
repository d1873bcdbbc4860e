// What an order of a message says.
ghost use Rattle.std.specs.Prelude.{◌≡◌};
ghost use Rattle.decimal.specs.Decimal.{read};
ghost use Rattle.decimal.specs.Reads.{parsed};
ghost use Rattle.json_values.specs.Names.{inner};
ghost use Rattle.order_edit.specs.Ids.{id_of};
ghost use Rattle.order_entries.specs.Collected.{Placed, Laid};
ghost use Rattle.order_entries.specs.Saying.{stays_of, first_bad, ReadAs};

use crate::{OrderPlace, OrderRead};
use decimal::Decimal;
use edit::Side;
use entries::{is_bad_price, is_bad_size, number_of, parse_quoted};
use order_edit::{Buffered, Event, Id, id_of};

// The entry that the order that was found is, for one side, and where the first of its texts begins that check 8 refuses.
pub fn read_order(s: &[u8], side: Side, found: OrderPlace) -> OrderRead
    requires { Laid s.now found }
    ensures { ReadAs s.now side found result }
{
    let price = parse_text(s, found.price_from, found.price_to);
    let size = parse_text(s, found.size_from, found.size_to);
    let id = id_at(s, found.id_from, found.id_to);
    let event = found.event.unwrap_or(Event::Add);
    let bad = is_bad_price(price);
    let loose = is_bad_size(size, is_staying(event));
    let zero = is_bad_size(size, true);
    OrderRead {
        entry: Buffered {
            side,
            event,
            id,
            price: number_of(price),
            size: number_of(size),
        },
        broken_at: first_bad(bad, found.price_from, loose, found.size_from),
        strict_at: first_bad(bad, found.price_from, zero, found.size_from),
    }
}

// Where the first bad one of two texts begins, or 0 where none is bad.
#[tactic(auto, using(std::proofs::lemmas::Bool::Decides::nat_tests), unfolding(crate::specs::Saying::first_bad))]
fn first_bad(price: bool, price_at: usize, size: bool, size_at: usize) -> usize
    ensures { result ≡ first_bad price price_at size size_at }
{
    if size && (!price || size_at < price_at) {
        size_at
    } else if price {
        price_at
    } else {
        0
    }
}

// Whether the order stays on the book: a deleted one does not.
#[tactic(auto, unfolding(crate::specs::Saying::stays_of))]
fn is_staying(event: Event) -> bool
    ensures { result ≡ stays_of event }
{
    match event {
        Event::Add | Event::Modify => true,
        Event::Delete => false,
    }
}

// What the text from `from` to `to`, quotes included, says as a decimal.
fn parse_text(s: &[u8], from: usize, to: usize) -> Option<Decimal>
    requires { Placed s.now from to }
    ensures { parsed result ≡ read (inner s.now (record { from = from; to = to })) }
{
    if to - from < 2 {
        return None;
    }
    parse_quoted(s, from, to)
}

// The words of the id from `from` to `to`, quotes included.
fn id_at(s: &[u8], from: usize, to: usize) -> Id
    requires { Placed s.now from to }
    ensures { result ≡ id_of (inner s.now (record { from = from; to = to })) }
{
    if to - from < 2 {
        return id_of(b"");
    }
    let first = from + 1;
    let last = to - 1;
    id_of(&s[first..last])
}
