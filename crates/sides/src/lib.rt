// The sides of a book: one with the entries of a message applied, which lie in a buffer with those for the other side, and whether
// both together are crossed.
#![tactic(auto)]

ghost use Rattle.std.specs.Prelude.{◌≡◌, ◌≤◌, length, take};
ghost use Rattle.std.specs.Ordering.{is_ge};
ghost use Rattle.crc32.specs.Table.{ShiftTable};
ghost use Rattle.edit.specs.Edit.{for_side, side_of};
ghost use Rattle.edit.specs.Buffer.{entries_in};
ghost use Rattle.level.specs.Kept.{kept_in, held, Good};
ghost use Rattle.level.specs.Side.{crosses};
ghost use Rattle.level.specs.Words.{level_price};
ghost use Rattle.edit.specs.declared.Side.TheVariants.{Bids, Asks};
ghost use Rattle.side.specs.Applying.{Given};
ghost use Rattle.sides.specs.Worked.{Sound, edits_for, side_after, Worked};

use edit::{BUFFER_WORDS, Side};
use level::{MAX_WORDS, level_in, price_of};
use settings::SumText;
use side::Applied;
use std::cmp::Ordering;

// The side after the first `count` entries of a buffer, of which `own` are for it. The side is the first `kept` levels of the words,
// and then the first `left` of what is answered. The words past these stay as they are, and with no entries of its own all do. Levels
// are summed by way of the table, as in `side::apply`.
pub fn apply_entries(
    words: &mut [u64; MAX_WORDS],
    kept: usize,
    side: Side,
    depth: usize,
    text: SumText,
    buffer: &[u64; BUFFER_WORDS],
    own: usize,
    count: usize,
    table: &[u32],
) -> Applied
    requires { Sound text side (kept_in words.old kept) × Given side buffer.now count × (own ≡ length (for_side side_of side (take count (entries_in buffer.now)))) × (depth ≤ 100) × (length (held (kept_in words.old kept)) ≤ depth) × ShiftTable table.now }
    ensures { Worked text side depth (edits_for side (take count (entries_in buffer.now))) (kept_in words.old kept) (side_after words.new result) × (own ≡ 0 → words.new ≡ words.old) }
{
    if own == 0 {
        return Applied {
            left: kept,
            count: kept,
            moved: 0,
            replaced: false,
        };
    }
    side::apply(words, kept, side, depth, text, buffer, count, table)
}

// Whether a book of so many bids and asks is crossed: both sides have levels, and the best bid is not below the best ask.
pub fn is_crossed(
    bids: &[u64; MAX_WORDS],
    bid_count: usize,
    asks: &[u64; MAX_WORDS],
    ask_count: usize,
) -> bool
    requires { Good Bids (kept_in bids.now bid_count) × Good Asks (kept_in asks.now ask_count) }
    ensures { result ≡ crosses level_price (held (kept_in bids.now bid_count)) (held (kept_in asks.now ask_count)) }
{
    if bid_count == 0 || ask_count == 0 {
        return false;
    }
    let bid = price_of(level_in(bids, 0));
    let ask = price_of(level_in(asks, 0));
    is_not_below(decimal::compare(bid, ask))
}

// Whether the first of two prices, in this order by value, is not below the second.
fn is_not_below(order: Ordering) -> bool
    ensures { result ≡ is_ge order }
{
    order.is_ge()
}
