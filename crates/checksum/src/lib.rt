// The checksum of a book, from the sums that its levels carry.
//
// A level carries the CRC and the length of its own piece of checksum text, made once, when the level is made
// (`level_of`). The book's checksum is put together from them, so an update costs no digit of a level that it
// does not touch. A side is lent as its words and the number of its levels, and is not copied. The table is one that
// `crc32::fill_table` filled; one of no entries will do, and is slower.
//
//     let level = checksum::level_of(SumText::Stripped, price, size, table);
//     checksum::k_checksum(10, &bids.words, bids.count, &asks.words, asks.count, table)  // of the ten best asks, then the ten best bids
#![tactic(auto)]

ghost use Rattle.std.specs.Prelude.{◌≡◌, map, ◌≤◌, length, take, drop};
ghost use Rattle.decimal.specs.Decimal.{number};
ghost use Rattle.decimal.specs.Limits.{Within};
ghost use Rattle.crc32.specs.Table.{ShiftTable};
ghost use Rattle.piece.specs.Piece.{k_piece, m_piece, SumsTo};
ghost use Rattle.edit.specs.declared.Side.TheVariants.{Bids, Asks};
ghost use Rattle.level.specs.Words.{shown};
ghost use Rattle.level.specs.Ranked.{All};
ghost use Rattle.level.specs.Words.{levels_in};
ghost use Rattle.level.specs.Kept.{kept_in, max_levels, max_words, held, Good};
ghost use Rattle.crc32_spec.specs.Crc.{crc};
ghost use Rattle.checksum.specs.Text.{k_checksum_text, interleaved, m_checksum_text};
ghost use Rattle.checksum.specs.Carried.{piece_of, level_for, Carries, summed};

use decimal::Decimal;
use level::{Level, MAX_WORDS};
use piece::Piece;
use settings::SumText;

// The state that a colon turns into the start: every piece of M begins with a colon, and the text does not.
const M_START: u32 = 4036333539;

// The level of a price and a size, with the sum and the length of its piece of that text.
pub fn level_of(text: SumText, price: Decimal, size: Decimal, table: &[u32]) -> Level
    requires { Within (number price) × Within (number size) × ShiftTable table.now }
    ensures { result ≡ level_for text (number price) (number size) }
{
    let piece = piece_of(text, price, size, table);
    level::make(price, size, piece.sum, piece.length)
}

fn piece_of(text: SumText, price: Decimal, size: Decimal, table: &[u32]) -> Piece
    requires { Within (number price) × Within (number size) × ShiftTable table.now }
    ensures { SumsTo (piece_of text (number price) (number size)) result }
{
    match text {
        SumText::Stripped => piece::k_piece(price, size, table),
        SumText::Interleaved => piece::m_piece(price, size, table),
    }
}

// The checksum of a K book, of whose levels the `most` best a side are summed.
pub fn k_checksum(
    most: usize,
    bids: &[u64; MAX_WORDS],
    bid_count: usize,
    asks: &[u64; MAX_WORDS],
    ask_count: usize,
    table: &[u32],
) -> u32
    requires { Good Bids (kept_in bids.now bid_count) × Good Asks (kept_in asks.now ask_count) × All (Carries k_piece) (held (kept_in bids.now bid_count)) × All (Carries k_piece) (held (kept_in asks.now ask_count)) × ShiftTable table.now }
    ensures { result ≡ crc (k_checksum_text most (map shown (held (kept_in bids.now bid_count))) (map shown (held (kept_in asks.now ask_count)))) }
{
    let after_asks = sum_levels(crc32::START, asks, 0, ask_count.min(most), table);
    sum_levels(after_asks, bids, 0, bid_count.min(most), table) ^ crc32::START
}

// The checksum of an M book, of whose levels the `most` best a side are summed.
pub fn m_checksum(
    most: usize,
    bids: &[u64; MAX_WORDS],
    bid_count: usize,
    asks: &[u64; MAX_WORDS],
    ask_count: usize,
    table: &[u32],
) -> u32
    requires { Good Bids (kept_in bids.now bid_count) × Good Asks (kept_in asks.now ask_count) × All (Carries m_piece) (held (kept_in bids.now bid_count)) × All (Carries m_piece) (held (kept_in asks.now ask_count)) × ShiftTable table.now }
    ensures { result ≡ crc (m_checksum_text most (map shown (held (kept_in bids.now bid_count))) (map shown (held (kept_in asks.now ask_count)))) }
{
    let bid_end = bid_count.min(most);
    let ask_end = ask_count.min(most);
    if bid_end == 0 && ask_end == 0 {
        return 0;
    }
    let both = bid_end.min(ask_end);
    let paired = sum_pairs(M_START, bids, asks, both, table);
    let after_bids = sum_levels(paired, bids, both, bid_end, table);
    sum_levels(after_bids, asks, both, ask_end, table) ^ crc32::START
}

// The state after the pieces of the levels from one place to another.
fn sum_levels(state: u32, words: &[u64; MAX_WORDS], from: usize, to: usize, table: &[u32]) -> u32
    requires { (from ≤ to) × (to ≤ max_levels) × (length words.now ≡ max_words) × ShiftTable table.now }
    ensures { result ≡ summed state (drop from (take to (levels_in words.now))) }
{
    let mut sum = state;
    for i in from..to {
        let level = level::level_in(words, i);
        sum = crc32::combine_with(
            table,
            sum,
            level::sum_of(level),
            level::length_of(level) as usize,
        );
    }
    sum
}

// The state after the pieces of the first n bids and asks in turn. The two of a turn are put together first, so that a
// turn waits for one step of the turn before it and not for two.
fn sum_pairs(
    state: u32,
    bids: &[u64; MAX_WORDS],
    asks: &[u64; MAX_WORDS],
    n: usize,
    table: &[u32],
) -> u32
    requires { (n ≤ max_levels) × (length bids.now ≡ max_words) × (length asks.now ≡ max_words) × ShiftTable table.now }
    ensures { result ≡ summed state (interleaved n (take n (levels_in bids.now)) (take n (levels_in asks.now))) }
{
    let mut sum = state;
    for i in 0..n {
        let bid = level::level_in(bids, i);
        let ask = level::level_in(asks, i);
        let bid_length = level::length_of(bid) as usize;
        let ask_length = level::length_of(ask) as usize;
        let pair = crc32::combine_with(table, level::sum_of(bid), level::sum_of(ask), ask_length);
        sum = crc32::combine_with(table, sum, pair, bid_length + ask_length);
    }
    sum
}
