// The texts of the line program: line 1, which has a book's settings, and the reply to a message.
//
//     line_text::read_settings(b"M 100 BTC-VND")                        // M, 100, and the name from byte 6 on
//     line_text::write_reply(Answer::Taken, true, 1, 1, buffer, 0)     // `0 1 1` and a line end
#![tactic(auto)]

ghost use Rattle.std.specs.Prelude.{◌≡◌, ◌≤◌, length, drop};
ghost use Rattle.settings.specs.Settings.{shut};
ghost use Rattle.writer.specs.Parts.{Room, Put};
ghost use Rattle.line_text.specs.Opening.{by_letter, by_edition, dialect_of, line_one, depth_and_name, Found};
ghost use Rattle.line_text.specs.Reply.{reply_text, counts_text};

use answer::{Answer, number_of};
use lines::find;
use settings::{Dialect, Edition};
use writer::{lay, lay_number, lay_whole};

const BLANK: u8 = b' ';

// The longest reply: three numbers of 20 digits, two blanks and a line end.
pub const MAX_REPLY: usize = 63;

// What line 1 says: dialect, depth, and where the name begins, which goes on to the line's end.
#[derive(Clone, Copy)]
pub struct FirstLine {
    pub dialect: Dialect,
    pub depth: usize,
    pub name: usize,
}

// The settings on line 1. Of a line that is not laid out as it must be they are those of a shut book.
pub fn read_settings(line: &[u8]) -> FirstLine
    ensures { Found line.now (line_one line.now) result }
{
    let end = find(line, 0, BLANK);
    if line.len() <= end {
        return no_settings(line);
    }
    let dialect = dialect_of(&line[..end]);
    read_depth(line, end + 1, dialect)
}

// The dialect that a word names.
#[tactic(auto, using(std::proofs::lemmas::Bool::Decides::nat_tests), unfolding(crate::specs::Opening::dialect_of, crate::specs::Opening::by_letter, crate::specs::Opening::by_edition))]
fn dialect_of(word: &[u8]) -> Dialect
    ensures { result ≡ dialect_of word.now }
{
    match word {
        b"K" => Dialect::K,
        b"M" | b"M1" => Dialect::M(Edition::M1),
        b"M2" => Dialect::M(Edition::M2),
        _ => Dialect::Unknown,
    }
}

// The depth and the name, from a position on.
fn read_depth(line: &[u8], at: usize, dialect: Dialect) -> FirstLine
    requires { at ≤ length line.now }
    ensures { Found line.now (depth_and_name dialect (drop at line.now)) result }
{
    let end = find(line, at, BLANK);
    if line.len() <= end {
        return no_settings(line);
    }
    match decimal::parse_whole(&line[at..end]) {
        Some(depth) => FirstLine {
            dialect,
            depth: depth as usize,
            name: end + 1,
        },
        None => no_settings(line),
    }
}

fn no_settings(line: &[u8]) -> FirstLine
    ensures { Found line.now shut result }
{
    FirstLine {
        dialect: Dialect::Unknown,
        depth: 0,
        name: line.len(),
    }
}

// Lays the reply to a message into a buffer at a position, and answers the position past it.
pub fn write_reply(
    answer: Answer,
    live: bool,
    bids: usize,
    asks: usize,
    buffer: &mut [u8],
    at: usize,
) -> usize
    requires { Room buffer.old at (reply_text answer live bids asks) }
    ensures { Put buffer.old at (reply_text answer live bids asks) buffer.new result }
{
    let end = lay_whole(number_of(answer), buffer, at);
    if live {
        return lay_counts(bids as u64, asks as u64, buffer, end);
    }
    lay(b" - -\n", buffer, end)
}

fn lay_counts(bids: u64, asks: u64, buffer: &mut [u8], at: usize) -> usize
    requires { Room buffer.old at (counts_text bids asks) }
    ensures { Put buffer.old at (counts_text bids asks) buffer.new result }
{
    let after_bids = lay_number(b" ", bids, buffer, at);
    let after_asks = lay_number(b" ", asks, buffer, after_bids);
    lay(b"\n", buffer, after_asks)
}
