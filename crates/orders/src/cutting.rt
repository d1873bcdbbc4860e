// The cut to the best prices.
ghost use Rattle.orders.specs.Words.{held};
ghost use Rattle.orders.specs.Kept.{Good, CutTo, SummedTo};

use crate::words::order_at;
use edit::Side;
use level::price_of;

// How many of the best prices a checksum runs over.
const SUMMED: usize = 10;

// How many of the first `count` orders are left where the best `depth` prices are kept, with all their orders.
pub fn cut(words: &[u64], count: usize, side: Side, depth: usize) -> usize
    requires { Good side words.now count }
    ensures { CutTo depth (held words.now count) result }
{
    if depth == 0 || count == 0 {
        return 0;
    }
    let mut price = price_of(order_at(words, 0).level);
    let mut more = depth - 1;
    for i in 1..count {
        let this = price_of(order_at(words, i).level);
        if decimal::compare(this, price).is_ne() {
            if more == 0 {
                return i;
            }
            more -= 1;
            price = this;
        }
    }
    count
}

// How many of the first `count` orders a checksum runs over: those at the ten best prices.
pub fn count_summed(words: &[u64], count: usize, side: Side) -> usize
    requires { Good side words.now count }
    ensures { SummedTo (held words.now count) result }
{
    cut(words, count, side, SUMMED)
}
