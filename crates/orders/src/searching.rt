// Looking for an id and for a price's place on a side.
ghost use Rattle.std.specs.Prelude.{◌*◌, ◌≤◌, length};
ghost use Rattle.decimal.specs.Decimal.{number, value};
ghost use Rattle.decimal.specs.Limits.{Within};
ghost use Rattle.level.specs.Ranked.{All};
ghost use Rattle.order_edit.specs.Ids.{id_words};
ghost use Rattle.orders.specs.Words.{held, Sound};
ghost use Rattle.orders.specs.Kept.{Good, FoundId, StandsAt, PlaceFor};

use crate::words::order_at;
use decimal::Decimal;
use edit::Side;
use level::{is_ahead, price_of};
use order_edit::Id;

// Where the order with this id stands among the first `count`.
pub(crate) fn find_id(words: &[u64], count: usize, id: Id) -> Option<usize>
    requires { 6 * count ≤ length words.now }
    ensures { FoundId (held words.now count) (id_words id) result }
{
    for i in 0..count {
        if order_at(words, i).id == id {
            return Some(i);
        }
    }
    None
}

// Where the order with this id stands among the first `count`, if that is at this price.
pub(crate) fn standing(words: &[u64], count: usize, id: Id, price: Decimal) -> Option<usize>
    requires { (6 * count ≤ length words.now) × All Sound (held words.now count) × Within (number price) }
    ensures { StandsAt (held words.now count) (id_words id) (value (number price)) result }
{
    let at = find_id(words, count, id)?;
    let stood = price_of(order_at(words, at).level);
    if decimal::compare(stood, price).is_eq() {
        Some(at)
    } else {
        None
    }
}

// Where an order of this price goes: last at its price.
pub(crate) fn place_for(words: &[u64], count: usize, side: Side, price: Decimal) -> usize
    requires { Good side words.now count × Within (number price) }
    ensures { PlaceFor side (held words.now count) (value (number price)) result }
{
    // the price does not stand before the orders ahead of `low`, and it stands before those from `high` on
    let mut low = 0;
    let mut high = count;
    'find: while low < high {
        let middle = low + ((high - low) >> 1);
        let stood = price_of(order_at(words, middle).level);
        if is_ahead(side, decimal::compare(price, stood)) {
            high = middle;
        } else {
            low = middle + 1;
        }
    }
    low
}
