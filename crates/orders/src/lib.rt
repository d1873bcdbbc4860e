// A book of single orders: two sides, best price first and earliest first within a price, and what messages do to them.
//
// A side keeps up to 128 orders, six words each. An update adds, modifies and deletes orders by their ids, bids before asks, and
// is then cut to the best `depth` prices with all their orders. An entry clashes where an added id stands already on either side,
// or a modified or deleted one does not stand on its side at its price; then, and where a side would have too many orders, nothing
// is changed. A level of an order carries the sum of its piece of checksum text (see `checksum`), made with a table that is lent.
//
//     let counts = orders::update(&mut bids, b, &mut asks, a, 10, &buffer, count, table)?;   // how many orders each side has now
//     orders::count_summed(&bids, counts.bids, Side::Bids)                                   // how many of them a checksum runs over
#![tactic(auto)]

mod applying;
mod cutting;
mod moving;
mod searching;
mod updating;
mod words;

pub use cutting::{count_summed, cut};
use level::Level;
use order_edit::Id;
pub use updating::{snapshot, update};
pub use words::order_at;

// How many orders a side keeps.
pub const MAX_ORDERS: usize = 128;

// How many words an order takes: three of its level, three of its id.
const ORDER_WORDS: usize = 6;

// The words of a side that is kept.
pub const MAX_WORDS: usize = ORDER_WORDS * MAX_ORDERS;

// The words of a side while one message is worked: there is room for 256 orders.
const MAX_WORKING: usize = 2 * MAX_WORDS;

// The price and the size of an order with the sum of their piece of checksum text, and its id.
#[derive(Clone, Copy)]
pub struct Order {
    pub level: Level,
    pub id: Id,
}

// How many orders a message left on each side.
#[derive(Clone, Copy)]
pub struct Counts {
    pub bids: usize,
    pub asks: usize,
}

// Why a message was refused: an entry clashed, or a side would have too many orders.
#[derive(Clone, Copy, Debug, PartialEq, Eq)]
pub enum Refusal {
    Clashed,
    TooMany,
}
