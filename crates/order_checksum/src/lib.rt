// The checksum of a book of single orders, put together from the sums that its orders carry: of the orders at the ten best ask prices,
// then of those at the ten best bid prices. The table is one that `crc32::fill_table` filled; one of no entries will do, and is slower.
//
//     order_checksum::checksum_of(&bids, b, &asks, a, table)
#![tactic(auto)]

ghost use Rattle.std.specs.Prelude.{◌≡◌, map, ◌*◌, ◌≤◌, length};
ghost use Rattle.crc32_spec.specs.Crc.{crc};
ghost use Rattle.crc32.specs.Table.{ShiftTable};
ghost use Rattle.checksum.specs.Carried.{summed};
ghost use Rattle.edit.specs.declared.Side.TheVariants.{Bids, Asks};
ghost use Rattle.orders.specs.Words.{held, shown};
ghost use Rattle.orders.specs.Kept.{Good};
ghost use Rattle.order_checksum.specs.Text.{order_checksum_text, levels_of};

use edit::Side;
use orders::{count_summed, order_at};

// The checksum of the first `b` orders of the bids and the first `a` of the asks.
pub fn checksum_of(bids: &[u64], b: usize, asks: &[u64], a: usize, table: &[u32]) -> u32
    requires { Good Bids bids.now b × Good Asks asks.now a × ShiftTable table.now }
    ensures { result ≡ crc (order_checksum_text (map shown (held bids.now b)) (map shown (held asks.now a))) }
{
    let after_asks = sum_orders(crc32::START, asks, count_summed(asks, a, Side::Asks), table);
    sum_orders(after_asks, bids, count_summed(bids, b, Side::Bids), table) ^ crc32::START
}

// The state after the pieces of the first n orders.
fn sum_orders(state: u32, words: &[u64], n: usize, table: &[u32]) -> u32
    requires { (6 * n ≤ length words.now) × ShiftTable table.now }
    ensures { result ≡ summed state (levels_of (held words.now n)) }
{
    let mut sum = state;
    for i in 0..n {
        let level = order_at(words, i).level;
        sum = crc32::combine_with(
            table,
            sum,
            level::sum_of(level),
            level::length_of(level) as usize,
        );
    }
    sum
}
