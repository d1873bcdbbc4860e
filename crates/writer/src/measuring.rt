// How long the texts of a snapshot are, known before one byte is laid.
ghost use Rattle.std.specs.Prelude.{◌≡◌, ◌≤◌, length};
ghost use Rattle.writer.specs.Parts.{Writable, WritableSide, entry, entries, k_snapshot_text, m_snapshot_text, max_entry, max_side, max_name};

use level::{Level, Levels, level_in};

// The bytes of an entry other than those of its price and size, with a timestamp and without.
const STAMPED: usize = 18;

const PLAIN: usize = 7;

// The bytes of a snapshot other than those of its entries, name and numbers.
const K_FRAME: usize = 32;

const M_FRAME: usize = 97;

// The length of a K book's text.
pub fn k_length(depth: usize, name: &[u8], bids: Levels, asks: Levels) -> usize
    requires { WritableSide bids × WritableSide asks × (length name.now ≤ max_name) }
    ensures { result ≡ length (k_snapshot_text depth name.now bids asks) }
{
    let sides = side_length(true, &asks) + side_length(true, &bids);
    K_FRAME + sides + decimal::whole_length(depth as u64) + name.len()
}

// The length of an M book's text.
pub fn m_length(name: &[u8], bids: Levels, asks: Levels, checksum: u32, number: u64) -> usize
    requires { WritableSide bids × WritableSide asks × (length name.now ≤ max_name) }
    ensures { result ≡ length (m_snapshot_text name.now bids asks checksum number) }
{
    let sides = side_length(false, &bids) + side_length(false, &asks);
    let numbers = decimal::whole_length(checksum as u64) + decimal::whole_length(number);
    M_FRAME + sides + numbers + name.len()
}

// The length of the entries of a side.
fn side_length(stamped: bool, levels: &Levels) -> usize
    requires { WritableSide levels.now }
    ensures { (result ≡ length (entries stamped levels.now)) × (result ≤ max_side) }
{
    let mut n: usize = 0;
    for i in 0..levels.count {
        n += 1 + entry_length(stamped, level_in(&levels.words, i));
    }
    n.saturating_sub(1)
}

// The length of a level's text as an entry.
fn entry_length(stamped: bool, level: Level) -> usize
    requires { Writable level }
    ensures { (result ≡ length (entry stamped level)) × (result ≤ max_entry) }
{
    let price = decimal::text_length(level::price_of(level));
    let size = decimal::text_length(level::size_of(level));
    if stamped {
        return price + size + STAMPED;
    }
    price + size + PLAIN
}
