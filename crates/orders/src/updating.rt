// A message's entries on both sides: bids before asks, in words of their own, so that a refused message changes nothing.
ghost use Rattle.std.specs.Prelude.{◌≡◌, true, false, length, take};
ghost use Rattle.crc32.specs.Table.{ShiftTable};
ghost use Rattle.edit.specs.declared.Side.TheVariants.{Bids, Asks};
ghost use Rattle.order_edit.specs.Buffer.{entries_in};
ghost use Rattle.orders.specs.Orders.{both, cut_both, after_update, after_snapshot};
ghost use Rattle.orders.specs.Words.{coded, held, changes_for, orders_for};
ghost use Rattle.orders.specs.Kept.{max_words, Good, Kept, Sent, AfterMessage};

use crate::applying::apply;
use crate::cutting::cut;
use crate::moving::copy;
use crate::{Counts, MAX_ORDERS, MAX_WORDS, MAX_WORKING, Refusal};
use edit::Side;
use order_edit::BUFFER_WORDS;

// An update. The sides are the first `b` orders of the bids and the first `a` of the asks; its entries are the first `entries` of the buffer.
pub fn update(
    bids: &mut [u64; MAX_WORDS],
    b: usize,
    asks: &mut [u64; MAX_WORDS],
    a: usize,
    depth: usize,
    buffer: &[u64; BUFFER_WORDS],
    entries: usize,
    table: &[u32],
) -> Result<Counts, Refusal>
    requires { Kept Bids bids.old b × Kept Asks asks.old a × Sent buffer.now entries × ShiftTable table.now }
    ensures { AfterMessage (after_update coded depth (changes_for false Bids (take entries (entries_in buffer.now))) (changes_for false Asks (take entries (entries_in buffer.now))) (held bids.old b) (held asks.old a)) bids.old asks.old bids.new asks.new result }
{
    work(false, bids, b, asks, a, depth, buffer, entries, table)
}

// A snapshot: the orders of the first `entries` entries of the buffer replace both sides, whatever their events. An id that stands twice, on either side, is
// a clash.
pub fn snapshot(
    bids: &mut [u64; MAX_WORDS],
    asks: &mut [u64; MAX_WORDS],
    depth: usize,
    buffer: &[u64; BUFFER_WORDS],
    entries: usize,
    table: &[u32],
) -> Result<Counts, Refusal>
    requires { (length bids.old ≡ max_words) × (length asks.old ≡ max_words) × Sent buffer.now entries × ShiftTable table.now }
    ensures { AfterMessage (after_snapshot coded depth (orders_for Bids (take entries (entries_in buffer.now))) (orders_for Asks (take entries (entries_in buffer.now)))) bids.old asks.old bids.new asks.new result }
{
    work(true, bids, 0, asks, 0, depth, buffer, entries, table)
}

// A message's entries on both sides. The sides are the first `b` orders of the bids and the first `a` of the asks; its entries are the first
// `entries` of the buffer. Where the orders are `listed`, each is added, whatever its event.
fn work(
    listed: bool,
    bids: &mut [u64; MAX_WORDS],
    b: usize,
    asks: &mut [u64; MAX_WORDS],
    a: usize,
    depth: usize,
    buffer: &[u64; BUFFER_WORDS],
    entries: usize,
    table: &[u32],
) -> Result<Counts, Refusal>
    requires { Kept Bids bids.old b × Kept Asks asks.old a × Sent buffer.now entries × ShiftTable table.now }
    ensures { AfterMessage (after_update coded depth (changes_for listed Bids (take entries (entries_in buffer.now))) (changes_for listed Asks (take entries (entries_in buffer.now))) (held bids.old b) (held asks.old a)) bids.old asks.old bids.new asks.new result }
{
    let mut working = [0; MAX_WORKING];
    copy(bids, &mut working, b);
    let mut others = [0; MAX_WORKING];
    copy(asks, &mut others, a);
    let n = apply(
        listed,
        &mut working,
        b,
        Side::Bids,
        &others,
        a,
        buffer,
        entries,
        table,
    )
    .ok_or(Refusal::Clashed)?;
    let m = apply(
        listed,
        &mut others,
        a,
        Side::Asks,
        &working,
        n,
        buffer,
        entries,
        table,
    )
    .ok_or(Refusal::Clashed)?;
    keep(&working, n, &others, m, depth, bids, asks)
}

// The sides that working words hold, cut to the best `depth` prices: they are kept, if they fit.
fn keep(
    working: &[u64],
    n: usize,
    others: &[u64],
    m: usize,
    depth: usize,
    bids: &mut [u64; MAX_WORDS],
    asks: &mut [u64; MAX_WORDS],
) -> Result<Counts, Refusal>
    requires { Good Bids working.now n × Good Asks others.now m × (length bids.old ≡ max_words) × (length asks.old ≡ max_words) }
    ensures { AfterMessage (cut_both coded depth (both (held working.now n) (held others.now m))) bids.old asks.old bids.new asks.new result }
{
    let x = cut(working, n, Side::Bids, depth);
    let y = cut(others, m, Side::Asks, depth);
    if x > MAX_ORDERS || y > MAX_ORDERS {
        return Err(Refusal::TooMany);
    }
    copy(working, bids, x);
    copy(others, asks, y);
    Ok(Counts { bids: x, asks: y })
}
