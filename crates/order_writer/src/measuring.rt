// How long the texts of a snapshot are, known before one byte is laid.
ghost use Rattle.std.specs.Prelude.{◌≡◌, ◌≤◌, length};
ghost use Rattle.order_edit.specs.Ids.{bytes_of, id_bytes};
ghost use Rattle.writer.specs.Parts.{max_name};
ghost use Rattle.orders.specs.Words.{Sound};
ghost use Rattle.order_writer.specs.Parts.{entry, entries, snapshot_text, WritableSide, max_id_bytes, max_entry, max_side};

use order_edit::Id;
use orders::{Order, order_at};

// The bytes of an order other than those of its id, price and size.
const ORDER_FRAME: usize = 47;

// The bytes of a snapshot other than those of its orders, name and checksum.
const FRAME: usize = 93;

// The length of a book's text.
pub fn snapshot_length(
    name: &[u8],
    bids: &[u64],
    b: usize,
    asks: &[u64],
    a: usize,
    checksum: u32,
) -> usize
    requires { WritableSide bids.now b × WritableSide asks.now a × (length name.now ≤ max_name) }
    ensures { result ≡ length (snapshot_text name.now bids.now b asks.now a checksum) }
{
    let sides = side_length(bids, b) + side_length(asks, a);
    FRAME + sides + decimal::whole_length(checksum as u64) + name.len()
}

// The length of the orders of a side.
fn side_length(words: &[u64], n: usize) -> usize
    requires { WritableSide words.now n }
    ensures { (result ≡ length (entries words.now n)) × (result ≤ max_side) }
{
    let mut sum: usize = 0;
    for i in 0..n {
        sum += 1 + order_length(order_at(words, i));
    }
    sum.saturating_sub(1)
}

// The length of an order's text.
fn order_length(order: Order) -> usize
    requires { Sound order }
    ensures { (result ≡ length (entry order)) × (result ≤ max_entry) }
{
    let price = decimal::text_length(level::price_of(order.level));
    let size = decimal::text_length(level::size_of(order.level));
    ORDER_FRAME + id_length(order.id) + price + size
}

// How many bytes an id has.
pub fn id_length(id: Id) -> usize
    ensures { (result ≡ length (id_bytes id)) × (result ≤ max_id_bytes) }
{
    word_length(id.first) + word_length(id.second) + word_length(id.third)
}

// How many bytes a word of an id has: up to eight, until a zero.
pub fn word_length(word: u64) -> usize
    ensures { (result ≡ length (bytes_of 8 word)) × (result ≤ 8) }
{
    word.to_le_bytes()
        .iter()
        .position(|byte| *byte == 0)
        .unwrap_or(8)
}
