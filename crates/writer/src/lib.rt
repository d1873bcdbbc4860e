// A book written out as a snapshot, which a new book with the same settings takes.
//
// The text is laid at the start of a lent buffer, whole or not at all, and the answer says where it ends: its length is known before the first byte is
// laid. Bytes past it stay.
//
//     writer::k_write(10, b"XBT/USD", bids, asks, buffer)   // `Some(76)` of `[0,{"as":[["0.05005",..`, or `None`
#![tactic(auto)]

mod laying;
mod measuring;

ghost use Rattle.std.specs.Prelude.{map, ◌≤◌, length};
ghost use Rattle.decimal.specs.Laying.{Laid};
ghost use Rattle.edit.specs.declared.Side.TheVariants.{Bids, Asks};
ghost use Rattle.level.specs.Words.{shown};
ghost use Rattle.level.specs.Kept.{held, Good};
ghost use Rattle.writer.specs.Snapshot.{k_snapshot, m_snapshot};
ghost use Rattle.writer.specs.Parts.{k_snapshot_text, m_snapshot_text, Sized, max_name, WritableSide, Room, Put};

use laying::lay_listed;
pub use laying::{lay, lay_decimal, lay_number, lay_whole};
use level::Levels;
use measuring::{k_length, m_length};

// Writes a K book.
pub fn k_write(
    depth: usize,
    name: &[u8],
    bids: Levels,
    asks: Levels,
    buffer: &mut [u8],
) -> Option<usize>
    requires { Good Bids bids × Good Asks asks × Sized bids × Sized asks × (length name.now ≤ max_name) }
    ensures { Laid buffer.old 0 (k_snapshot depth name.now (map shown (held bids)) (map shown (held asks))) buffer.new result }
{
    if buffer.len() < k_length(depth, name, bids, asks) {
        return None;
    }
    Some(lay_k(depth, name, bids, asks, buffer))
}

// Writes an M book, with its checksum and its number.
pub fn m_write(
    name: &[u8],
    bids: Levels,
    asks: Levels,
    checksum: u32,
    number: u64,
    buffer: &mut [u8],
) -> Option<usize>
    requires { Good Bids bids × Good Asks asks × Sized bids × Sized asks × (length name.now ≤ max_name) }
    ensures { Laid buffer.old 0 (m_snapshot name.now (map shown (held bids)) (map shown (held asks)) checksum number) buffer.new result }
{
    if buffer.len() < m_length(name, bids, asks, checksum, number) {
        return None;
    }
    Some(lay_m(name, bids, asks, checksum, number, buffer))
}

// Lays the text of a K book, asks first.
fn lay_k(depth: usize, name: &[u8], bids: Levels, asks: Levels, buffer: &mut [u8]) -> usize
    requires { WritableSide bids × WritableSide asks × Room buffer.old 0 (k_snapshot_text depth name.now bids asks) }
    ensures { Put buffer.old 0 (k_snapshot_text depth name.now bids asks) buffer.new result }
{
    let after_asks = lay_listed(b"[0,{\"as\":[", true, asks, buffer, 0);
    let after_bids = lay_listed(b"],\"bs\":[", true, bids, buffer, after_asks);
    let after_depth = lay_number(b"]},\"book-", depth as u64, buffer, after_bids);
    let before_name = lay(b"\",\"", buffer, after_depth);
    let after_name = lay(name, buffer, before_name);
    lay(b"\"]", buffer, after_name)
}

// Lays the text of an M book, bids first.
fn lay_m(
    name: &[u8],
    bids: Levels,
    asks: Levels,
    checksum: u32,
    number: u64,
    buffer: &mut [u8],
) -> usize
    requires { WritableSide bids × WritableSide asks × Room buffer.old 0 (m_snapshot_text name.now bids asks checksum number) }
    ensures { Put buffer.old 0 (m_snapshot_text name.now bids asks checksum number) buffer.new result }
{
    let before_name = lay(b"{\"channel\":\"book\",\"product\":\"", buffer, 0);
    let after_name = lay(name, buffer, before_name);
    let after_bids = lay_listed(
        b"\",\"type\":\"snapshot\",\"data\":{\"bids\":[",
        false,
        bids,
        buffer,
        after_name,
    );
    let after_asks = lay_listed(b"],\"asks\":[", false, asks, buffer, after_bids);
    let after_checksum = lay_number(b"]},\"checksum\":", checksum as u64, buffer, after_asks);
    let after_number = lay_number(b",\"gsn\":", number, buffer, after_checksum);
    lay(b"}", buffer, after_number)
}
