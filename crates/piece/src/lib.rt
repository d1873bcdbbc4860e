// A level's piece of checksum text: its sum and its length.
//
// The sum is that of the CRC-32 from 0, so that the sum of a book is put together from those of its levels
// (`crc32::combine`). Bytes are made from the last to the first, and each is summed as it is made; no array and no word holds any
// of the text. The table is one that `crc32::fill_table` filled, by which a byte is summed in one look-up; one of no entries will do.
//
//     piece::k_piece(price, size, table)    // `5000304` for 0.05000 and 0.00000304
//     piece::m_piece(price, size, table)    // `:9:2` for 9 and 2: a colon before each part, so that pieces are joined as they are
#![tactic(auto)]

ghost use Rattle.std.specs.Prelude.{◌+◌, ◌<◌, ◌^◌, length};
ghost use Rattle.decimal.specs.Decimal.{number};
ghost use Rattle.decimal.specs.Limits.{Within};
ghost use Rattle.decimal.specs.Tail.{remaining};
ghost use Rattle.crc32.specs.Table.{ShiftTable};
ghost use Rattle.piece.specs.Piece.{k_piece, m_piece, SumsTo, Fed, Fronted};

use decimal::{Decimal, Tail};

const COLON: u8 = b':';

#[derive(Clone, Copy)]
pub struct Piece {
    pub sum: u32,
    pub length: u64,
}

// Dialect K: price, then size, without points and leading zeros.
pub fn k_piece(price: Decimal, size: Decimal, table: &[u32]) -> Piece
    requires { Within (number price) × Within (number size) × ShiftTable table.now }
    ensures { SumsTo (k_piece (number price) (number size)) result }
{
    let none = Piece { sum: 0, length: 0 };
    let second = feed(decimal::stripped_tail(size), none, table);
    feed(decimal::stripped_tail(price), second, table)
}

// Dialect M: a colon, the price's text, a colon, the size's text.
pub fn m_piece(price: Decimal, size: Decimal, table: &[u32]) -> Piece
    requires { Within (number price) × Within (number size) × ShiftTable table.now }
    ensures { SumsTo (m_piece (number price) (number size)) result }
{
    let none = Piece { sum: 0, length: 0 };
    let second = feed_byte(COLON, feed(decimal::text_tail(size), none, table), table);
    feed_byte(COLON, feed(decimal::text_tail(price), second, table), table)
}

// The piece with a text in front of it, from the text's last byte to its first.
fn feed(tail: Tail, piece: Piece, table: &[u32]) -> Piece
    requires { (piece.length + length (remaining tail) < 2 ^ 32) × ShiftTable table.now }
    ensures { Fed tail piece result }
{
    let mut rest = tail;
    let mut fed = piece;
    while let Some(byte) = rest.pop() {
        fed = feed_byte(byte, fed, table);
    }
    fed
}

// The piece with a byte in front of it: each byte of a text goes into the sum here, by itself.
fn feed_byte(b: u8, piece: Piece, table: &[u32]) -> Piece
    requires { (piece.length < 2 ^ 32) × ShiftTable table.now }
    ensures { Fronted b piece result }
{
    Piece {
        sum: crc32::front_with(table, b, piece.sum, piece.length),
        length: piece.length + 1,
    }
}
