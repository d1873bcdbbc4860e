// A message's entries applied to a side, in words with room for each of them to add an order.
ghost use Rattle.std.specs.Prelude.{◌||◌, not, ◌+◌, ◌*◌, ◌≤◌, length, take};
ghost use Rattle.crc32.specs.Table.{ShiftTable};
ghost use Rattle.level.specs.Ranked.{All};
ghost use Rattle.order_edit.specs.Buffer.{order_entry, entries_in};
ghost use Rattle.orders.specs.Orders.{priced, stands, stands_at, place, changed, without, clashes, apply};
ghost use Rattle.orders.specs.Words.{coded, order_id, held, Sound, EntrySound, order_for, change_of};
ghost use Rattle.orders.specs.Kept.{Good, Given, AfterOne, AfterEntries};

use crate::Order;
use crate::moving::{insert, remove};
use crate::searching::{find_id, place_for, standing};
use crate::words::{order_at, put_order};
use edit::Side;
use level::price_of;
use order_edit::{BUFFER_WORDS, Buffered, Event, entry_in};
use settings::SumText;

// The first `kept` orders of the words after those of the first `entries` entries of a buffer that are for their side, beside the first
// `others` orders of the other side: how many orders there are now, or None where an entry clashed. Where the orders are `listed`, as in a
// snapshot, each is added, whatever its event.
pub(crate) fn apply(
    listed: bool,
    words: &mut [u64],
    kept: usize,
    side: Side,
    other: &[u64],
    others: usize,
    buffer: &[u64; BUFFER_WORDS],
    entries: usize,
    table: &[u32],
) -> Option<usize>
    requires { Good side words.old kept × Given side words.old kept other.now others buffer.now entries × ShiftTable table.now }
    ensures { AfterEntries listed side (held other.now others) (take entries (entries_in buffer.now)) words.old kept words.new result }
{
    let mut count = kept;
    for k in 0..entries {
        let entry = entry_in(buffer, k);
        if entry.side == side {
            count = enter(listed, words, count, side, other, others, entry, table)?;
        }
    }
    Some(count)
}

// One entry.
fn enter(
    listed: bool,
    words: &mut [u64],
    count: usize,
    side: Side,
    other: &[u64],
    others: usize,
    entry: Buffered,
    table: &[u32],
) -> Option<usize>
    requires { Good side words.old count × (6 * (count + 1) ≤ length words.old) × (6 * others ≤ length other.now) × EntrySound (order_entry entry) × ShiftTable table.now }
    ensures { AfterOne (clashes coded (held other.now others) (change_of listed (order_entry entry)) (held words.old count)) (apply coded side (change_of listed (order_entry entry)) (held words.old count)) words.old count words.new result }
{
    if listed {
        return add(words, count, side, other, others, entry, table);
    }
    match entry.event {
        Event::Add => add(words, count, side, other, others, entry, table),
        Event::Modify => modify(words, count, entry, table),
        Event::Delete => delete(words, count, entry),
    }
}

// Puts an order last at its price, if its id stands on neither side.
fn add(
    words: &mut [u64],
    count: usize,
    side: Side,
    other: &[u64],
    others: usize,
    entry: Buffered,
    table: &[u32],
) -> Option<usize>
    requires { Good side words.old count × (6 * (count + 1) ≤ length words.old) × (6 * others ≤ length other.now) × EntrySound (order_entry entry) × ShiftTable table.now }
    ensures { AfterOne (stands coded (order_id (order_for (order_entry entry))) (held words.old count) || stands coded (order_id (order_for (order_entry entry))) (held other.now others)) (place coded side (order_for (order_entry entry)) (held words.old count)) words.old count words.new result }
{
    let id = entry.id;
    if find_id(words, count, id).is_some() || find_id(other, others, id).is_some() {
        return None;
    }
    let at = place_for(words, count, side, entry.price);
    let level = checksum::level_of(SumText::Stripped, entry.price, entry.size, table);
    insert(words, count, at, Order { level, id });
    Some(count + 1)
}

// Changes the size of the order with this id, if it stands at this price.
fn modify(words: &mut [u64], count: usize, entry: Buffered, table: &[u32]) -> Option<usize>
    requires { (6 * count ≤ length words.old) × All Sound (held words.old count) × EntrySound (order_entry entry) × ShiftTable table.now }
    ensures { AfterOne (not (stands_at coded (order_id (order_for (order_entry entry))) (priced coded (order_for (order_entry entry))) (held words.old count))) (changed coded (order_for (order_entry entry)) (held words.old count)) words.old count words.new result }
{
    let at = standing(words, count, entry.id, entry.price)?;
    let found = order_at(words, at);
    let price = price_of(found.level);
    let level = checksum::level_of(SumText::Stripped, price, entry.size, table);
    let id = found.id;
    put_order(words, at, Order { level, id });
    Some(count)
}

// Takes the order with this id out, if it stands at this price.
fn delete(words: &mut [u64], count: usize, entry: Buffered) -> Option<usize>
    requires { (6 * count ≤ length words.old) × All Sound (held words.old count) × EntrySound (order_entry entry) }
    ensures { AfterOne (not (stands_at coded (order_id (order_for (order_entry entry))) (priced coded (order_for (order_entry entry))) (held words.old count))) (without coded (order_id (order_for (order_entry entry))) (held words.old count)) words.old count words.new result }
{
    let at = standing(words, count, entry.id, entry.price)?;
    remove(words, count, at);
    Some(count - 1)
}
