// Texts laid into a lent buffer that has room for them, one after another.
ghost use Rattle.std.specs.Prelude.{◌++◌};
ghost use Rattle.decimal.specs.Digits.{written};
ghost use Rattle.decimal.specs.Decimal.{number, text};
ghost use Rattle.decimal.specs.Limits.{Within};
ghost use Rattle.writer.specs.Parts.{Room, Put, Writable, WritableSide, entry, next_entry, entries};

use decimal::Decimal;
use level::{Level, Levels, level_in};

// Lays a text into a buffer at a position, and answers the position past it.
pub fn lay(bytes: &[u8], buffer: &mut [u8], at: usize) -> usize
    requires { Room buffer.old at bytes.now }
    ensures { Put buffer.old at bytes.now buffer.new result }
{
    let end = at + bytes.len();
    buffer[at..end].copy_from_slice(bytes);
    end
}

// Lays a text and the entries of a side.
pub fn lay_listed(
    before: &[u8],
    stamped: bool,
    levels: Levels,
    buffer: &mut [u8],
    at: usize,
) -> usize
    requires { WritableSide levels × Room buffer.old at (before.now ++ entries stamped levels) }
    ensures { Put buffer.old at (before.now ++ entries stamped levels) buffer.new result }
{
    let start = lay(before, buffer, at);
    lay_side(stamped, levels, buffer, start)
}

// Lays a text and the digits of a whole number.
pub fn lay_number(before: &[u8], n: u64, buffer: &mut [u8], at: usize) -> usize
    requires { Room buffer.old at (before.now ++ written n) }
    ensures { Put buffer.old at (before.now ++ written n) buffer.new result }
{
    let start = lay(before, buffer, at);
    lay_whole(n, buffer, start)
}

// Lays the entries of a side.
fn lay_side(stamped: bool, levels: Levels, buffer: &mut [u8], at: usize) -> usize
    requires { WritableSide levels × Room buffer.old at (entries stamped levels) }
    ensures { Put buffer.old at (entries stamped levels) buffer.new result }
{
    let count = levels.count;
    if count == 0 {
        return at;
    }
    let mut end = lay_entry(stamped, level_in(&levels.words, 0), buffer, at);
    for i in 1..count {
        end = lay_next(stamped, level_in(&levels.words, i), buffer, end);
    }
    end
}

// Lays a comma and a level as an entry.
fn lay_next(stamped: bool, level: Level, buffer: &mut [u8], at: usize) -> usize
    requires { Writable level × Room buffer.old at (next_entry stamped level) }
    ensures { Put buffer.old at (next_entry stamped level) buffer.new result }
{
    let past_comma = lay(b",", buffer, at);
    lay_entry(stamped, level, buffer, past_comma)
}

// Lays a level as an entry; `stamped` says that a timestamp follows.
fn lay_entry(stamped: bool, level: Level, buffer: &mut [u8], at: usize) -> usize
    requires { Writable level × Room buffer.old at (entry stamped level) }
    ensures { Put buffer.old at (entry stamped level) buffer.new result }
{
    let before_price = lay(b"[\"", buffer, at);
    let after_price = lay_decimal(level::price_of(level), buffer, before_price);
    let before_size = lay(b"\",\"", buffer, after_price);
    let after_size = lay_decimal(level::size_of(level), buffer, before_size);
    if stamped {
        return lay(b"\",\"0.000000\"]", buffer, after_size);
    }
    lay(b"\"]", buffer, after_size)
}

// Lays a decimal. There is room, so it always ends somewhere; the same of a whole number.
pub fn lay_decimal(a: Decimal, buffer: &mut [u8], at: usize) -> usize
    requires { Within (number a) × Room buffer.old at (text (number a)) }
    ensures { Put buffer.old at (text (number a)) buffer.new result }
{
    decimal::write(a, buffer, at).unwrap_or(at)
}

// Lays the digits of a whole number.
pub fn lay_whole(n: u64, buffer: &mut [u8], at: usize) -> usize
    requires { Room buffer.old at (written n) }
    ensures { Put buffer.old at (written n) buffer.new result }
{
    decimal::write_whole(n, buffer, at).unwrap_or(at)
}
