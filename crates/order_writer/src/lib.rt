// A book of single orders written out as a snapshot, which a new book with the same settings takes.
//
// The text is laid at the start of a lent buffer, whole or not at all: its length is known before the first byte is
// laid. Bytes past it stay.
//
//     order_writer::write(b"BTC/USD", &bids, 1, &asks, 0, 123, buffer)   // `Some(155)` of `{"channel":"level3",..`, or `None`
#![tactic(auto)]

mod laying;
mod measuring;

ghost use Rattle.std.specs.Prelude.{map, ◌≤◌, length};
ghost use Rattle.decimal.specs.Laying.{Laid};
ghost use Rattle.edit.specs.declared.Side.TheVariants.{Bids, Asks};
ghost use Rattle.writer.specs.Parts.{Room, Put, max_name};
ghost use Rattle.orders.specs.Words.{shown, held};
ghost use Rattle.orders.specs.Kept.{Kept};
ghost use Rattle.order_writer.specs.Snapshot.{order_snapshot};
ghost use Rattle.order_writer.specs.Parts.{snapshot_text, WritableSide};

pub use laying::lay_id;
use laying::lay_listed;
pub use measuring::id_length;
use measuring::snapshot_length;
use writer::{lay, lay_number};

// Writes a book of single orders, with its checksum: the first `b` orders of the bids and the first `a` of the asks.
pub fn write(
    name: &[u8],
    bids: &[u64],
    b: usize,
    asks: &[u64],
    a: usize,
    checksum: u32,
    buffer: &mut [u8],
) -> Option<usize>
    requires { Kept Bids bids.now b × Kept Asks asks.now a × (length name.now ≤ max_name) }
    ensures { Laid buffer.old 0 (order_snapshot name.now (map shown (held bids.now b)) (map shown (held asks.now a)) checksum) buffer.new result }
{
    if buffer.len() < snapshot_length(name, bids, b, asks, a, checksum) {
        return None;
    }
    Some(lay_snapshot(name, bids, b, asks, a, checksum, buffer))
}

// Lays the text of a book, bids first.
fn lay_snapshot(
    name: &[u8],
    bids: &[u64],
    b: usize,
    asks: &[u64],
    a: usize,
    checksum: u32,
    buffer: &mut [u8],
) -> usize
    requires { WritableSide bids.now b × WritableSide asks.now a × Room buffer.old 0 (snapshot_text name.now bids.now b asks.now a checksum) }
    ensures { Put buffer.old 0 (snapshot_text name.now bids.now b asks.now a checksum) buffer.new result }
{
    let before_name = lay(
        b"{\"channel\":\"level3\",\"type\":\"snapshot\",\"data\":[{\"symbol\":\"",
        buffer,
        0,
    );
    let after_name = lay(name, buffer, before_name);
    let after_checksum = lay_number(b"\",\"checksum\":", checksum as u64, buffer, after_name);
    let after_bids = lay_listed(b",\"bids\":[", bids, b, buffer, after_checksum);
    let after_asks = lay_listed(b"],\"asks\":[", asks, a, buffer, after_bids);
    lay(b"]}]}", buffer, after_asks)
}
