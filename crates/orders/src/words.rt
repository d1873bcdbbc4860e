// Orders as words: six an order.
ghost use Rattle.std.specs.Prelude.{◌≡◌, ◌+◌, ◌*◌, ◌<◌, length, get_or};
ghost use Rattle.orders.specs.Words.{orders_in, no_order};
ghost use Rattle.orders.specs.Kept.{PutAt};

use crate::{ORDER_WORDS, Order};
use order_edit::Id;

// Order i of words.
pub fn order_at(words: &[u64], i: usize) -> Order
    requires { 6 * i + 5 < length words.now }
    ensures { result ≡ get_or (orders_in words.now) i no_order }
{
    let at = ORDER_WORDS * i;
    let level = level::of_parts(words[at], words[at + 1], words[at + 2]);
    Order {
        level,
        id: Id {
            first: words[at + 3],
            second: words[at + 4],
            third: words[at + 5],
        },
    }
}

// Puts an order at place i of words.
pub(crate) fn put_order(words: &mut [u64], i: usize, order: Order)
    requires { 6 * i + 5 < length words.old }
    ensures { PutAt words.old i order words.new }
{
    let at = ORDER_WORDS * i;
    let level = level::parts_of(order.level);
    words[at] = level.price;
    words[at + 1] = level.size;
    words[at + 2] = level.rest;
    words[at + 3] = order.id.first;
    words[at + 4] = order.id.second;
    words[at + 5] = order.id.third;
}
