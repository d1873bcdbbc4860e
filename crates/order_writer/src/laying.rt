// The texts of orders laid into a lent buffer that has room for them, one after another.
ghost use Rattle.std.specs.Prelude.{◌++◌};
ghost use Rattle.order_edit.specs.Ids.{bytes_of, id_bytes};
ghost use Rattle.writer.specs.Parts.{Room, Put};
ghost use Rattle.orders.specs.Words.{Sound};
ghost use Rattle.order_writer.specs.Parts.{entry, next_entry, entries, WritableSide};

use crate::measuring::word_length;
use order_edit::Id;
use orders::{Order, order_at};
use writer::{lay, lay_decimal};

// Lays a text and the orders of a side.
pub fn lay_listed(before: &[u8], words: &[u64], n: usize, buffer: &mut [u8], at: usize) -> usize
    requires { WritableSide words.now n × Room buffer.old at (before.now ++ entries words.now n) }
    ensures { Put buffer.old at (before.now ++ entries words.now n) buffer.new result }
{
    let start = lay(before, buffer, at);
    lay_side(words, n, buffer, start)
}

// Lays the orders of a side.
fn lay_side(words: &[u64], n: usize, buffer: &mut [u8], at: usize) -> usize
    requires { WritableSide words.now n × Room buffer.old at (entries words.now n) }
    ensures { Put buffer.old at (entries words.now n) buffer.new result }
{
    if n == 0 {
        return at;
    }
    let mut end = lay_order(order_at(words, 0), buffer, at);
    for i in 1..n {
        end = lay_next(order_at(words, i), buffer, end);
    }
    end
}

// Lays a comma and an order.
fn lay_next(order: Order, buffer: &mut [u8], at: usize) -> usize
    requires { Sound order × Room buffer.old at (next_entry order) }
    ensures { Put buffer.old at (next_entry order) buffer.new result }
{
    let past_comma = lay(b",", buffer, at);
    lay_order(order, buffer, past_comma)
}

// Lays an order.
fn lay_order(order: Order, buffer: &mut [u8], at: usize) -> usize
    requires { Sound order × Room buffer.old at (entry order) }
    ensures { Put buffer.old at (entry order) buffer.new result }
{
    let before_id = lay(b"{\"order_id\":\"", buffer, at);
    let after_id = lay_id(order.id, buffer, before_id);
    let before_price = lay(b"\",\"limit_price\":\"", buffer, after_id);
    let after_price = lay_decimal(level::price_of(order.level), buffer, before_price);
    let before_size = lay(b"\",\"order_qty\":\"", buffer, after_price);
    let after_size = lay_decimal(level::size_of(order.level), buffer, before_size);
    lay(b"\"}", buffer, after_size)
}

// Lays the bytes of an id.
pub fn lay_id(id: Id, buffer: &mut [u8], at: usize) -> usize
    requires { Room buffer.old at (id_bytes id) }
    ensures { Put buffer.old at (id_bytes id) buffer.new result }
{
    let after_first = lay_word(id.first, buffer, at);
    let after_second = lay_word(id.second, buffer, after_first);
    lay_word(id.third, buffer, after_second)
}

// Lays the bytes of a word of an id: up to eight, low byte first, until a zero.
fn lay_word(word: u64, buffer: &mut [u8], at: usize) -> usize
    requires { Room buffer.old at (bytes_of 8 word) }
    ensures { Put buffer.old at (bytes_of 8 word) buffer.new result }
{
    lay(&word.to_le_bytes()[..word_length(word)], buffer, at)
}
