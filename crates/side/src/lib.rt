// A message's entries applied to one side of an order book, in their written order; then, and never between entries, the side is cut
// to its best `depth` levels. The entries lie in a buffer with those for the other side; an entry says which side it is for.
//
//     let applied = side::apply(&mut bids, count, Side::Bids, 10, SumText::Stripped, &buffer, entries, table);
//     level::level_at(Levels { words: bids, count: applied.left }, 0)        // the best bid now
#![tactic(auto)]

ghost use Rattle.std.specs.Prelude.{◌≡◌, ◌+◌, ◌-◌, ◌≤◌, ◌<◌, length, take};
ghost use Rattle.std.specs.List.{insert, remove};
ghost use Rattle.crc32.specs.Table.{ShiftTable};
ghost use Rattle.checksum.specs.Carried.{level_for};
ghost use Rattle.decimal.specs.Decimal.{number, value};
ghost use Rattle.decimal.specs.Limits.{Within};
ghost use Rattle.edit.specs.Edit.{named};
ghost use Rattle.edit.specs.Buffer.{entries_in, numbers_of};
ghost use Rattle.level.specs.Side.{standing};
ghost use Rattle.level.specs.Moved.{place_of};
ghost use Rattle.level.specs.Ranked.{map_edit, IfSet};
ghost use Rattle.level.specs.Words.{edit, change_of, level_price};
ghost use Rattle.level.specs.Kept.{max_levels, max_words, kept_in, held, Good};
ghost use Rattle.side.specs.Applying.{EntryWithin, LevelWithin, with_sum, Given, changes_for, AfterEntries};
ghost use Rattle.side.specs.Working.{max_working, Working, AfterChange, Stored};

use decimal::Decimal;
use edit::{BUFFER_WORDS, Buffered, Side, entry_in};
use level::{
    Change, EMPTY, Level, MAX_WORDS, entry_of, is_ahead, level_in, price_of, put_level, size_of,
};
use settings::SumText;

// How many levels there is room for while one message is worked: 100 that stood, and 100 entries.
const MAX_WORKING: usize = 200;

// A side with a message's entries applied and cut: how many levels are left, how many stood before the cut, how many the entries
// moved, and whether some entry set a level at a price where one stood by then.
#[derive(Clone, Copy)]
pub struct Applied {
    pub left: usize,
    pub count: usize,
    pub moved: usize,
    pub replaced: bool,
}

// What one entry did: how many levels there are after it, how many it moved, and whether it set a level at a price where one stood.
#[derive(Clone, Copy)]
struct Step {
    count: usize,
    moved: usize,
    replaced: bool,
}

// Where a price belongs on a side: how many levels stand nearer the top, and whether a level stands at the price.
#[derive(Clone, Copy)]
struct Place {
    at: usize,
    stands: bool,
}

// A side after those of the first `entries` entries of a buffer that are for it. The side is the first `kept` levels of the words,
// and then the first `left` of what is answered; the words past these stay as they are. The side is worked in an array of its own,
// that an entry changes in place; then the best are kept. Levels are summed by way of the table, which `crc32::fill_table` filled;
// one of no entries will do.
pub fn apply(
    words: &mut [u64; MAX_WORDS],
    kept: usize,
    side: Side,
    depth: usize,
    text: SumText,
    buffer: &[u64; BUFFER_WORDS],
    entries: usize,
    table: &[u32],
) -> Applied
    requires { Good side (kept_in words.old kept) × Given side buffer.now entries × (depth ≤ max_levels) × ShiftTable table.now }
    ensures { AfterEntries side depth (changes_for text side (take entries (entries_in buffer.now))) (kept_in words.old kept) words.new result }
{
    let mut levels = [EMPTY; MAX_WORKING];
    load(words, kept, &mut levels);
    let mut count = kept;
    let mut moved = 0;
    let mut replaced = false;
    for k in 0..entries {
        let numbers = entry_in(buffer, k);
        if numbers.side == side {
            let change = change_for(text, numbers, table);
            let step = apply_change(&mut levels, count, side, numbers.price, change);
            count = step.count;
            moved += step.moved;
            replaced = replaced || step.replaced;
        }
    }
    let left = count.min(depth);
    store(words, &levels, left);
    Applied {
        left,
        count,
        moved,
        replaced,
    }
}

// The first `kept` levels of the words, into an array.
fn load(words: &[u64; MAX_WORDS], kept: usize, levels: &mut [Level; MAX_WORKING])
    requires { kept ≤ max_levels }
    ensures { take kept levels.new ≡ held (kept_in words.now kept) }
{
    for i in 0..kept {
        levels[i] = level_in(words, i);
    }
}

// The first `left` levels of an array, into the words. No word past these is touched.
fn store(words: &mut [u64; MAX_WORDS], levels: &[Level; MAX_WORKING], left: usize)
    requires { left ≤ max_levels }
    ensures { Stored words.old (take left levels.now) left words.new }
{
    for i in 0..left {
        put_level(words, i, levels[i]);
    }
}

// What an entry does: its level with its sum, or a removal.
fn change_for(text: SumText, numbers: Buffered, table: &[u32]) -> Change
    requires { EntryWithin (numbers_of numbers) × ShiftTable table.now }
    ensures { edit result ≡ change_of (level_for text) (numbers_of numbers) }
{
    let entry = entry_of(numbers.side, numbers.price, numbers.size);
    with_sum(text, entry.change, table)
}

// The change with the sum of the level that it sets.
fn with_sum(text: SumText, change: Change, table: &[u32]) -> Change
    requires { IfSet LevelWithin (edit change) × ShiftTable table.now }
    ensures { edit result ≡ map_edit (with_sum text) (edit change) }
{
    match change {
        Change::Set(level) => Change::Set(checksum::level_of(
            text,
            price_of(level),
            size_of(level),
            table,
        )),
        Change::Remove(price) => Change::Remove(price),
    }
}

// The first `count` levels with a change at a price: its level is set at its place, or the level at the price is removed.
fn apply_change(
    levels: &mut [Level; MAX_WORKING],
    count: usize,
    side: Side,
    price: Decimal,
    change: Change,
) -> Step
    requires { Working side levels.old count × (count < max_working) × Within (number price) × (number price ≡ named level_price (edit change)) }
    ensures { AfterChange side (edit change) (take count levels.old) levels.new result }
{
    let place = find_price(levels, count, side, price);
    let at = place.at;
    match change {
        Change::Set(new) => {
            if place.stands {
                levels[at] = new;
                return Step {
                    count,
                    moved: 0,
                    replaced: true,
                };
            }
            insert(levels, count, at, new);
            Step {
                count: count + 1,
                moved: count - at,
                replaced: false,
            }
        }
        Change::Remove(_) => {
            if place.stands {
                remove(levels, count, at);
                return Step {
                    count: count - 1,
                    moved: count - 1 - at,
                    replaced: false,
                };
            }
            Step {
                count,
                moved: 0,
                replaced: false,
            }
        }
    }
}

// Where a price belongs among the first `count` levels.
fn find_price(levels: &[Level; MAX_WORKING], count: usize, side: Side, price: Decimal) -> Place
    requires { Working side levels.now count × Within (number price) }
    ensures { (result.at ≡ place_of level_price side (value (number price)) (take count levels.now)) × (result.stands ≡ standing level_price (value (number price)) (take count levels.now)) }
{
    let at = place_of(levels, count, side, price);
    Place {
        at,
        stands: at < count && decimal::compare(price_of(levels[at]), price).is_eq(),
    }
}

// How many of the first `count` levels stand nearer the top than a price.
fn place_of(levels: &[Level; MAX_WORKING], count: usize, side: Side, price: Decimal) -> usize
    requires { Working side levels.now count × Within (number price) }
    ensures { result ≡ place_of level_price side (value (number price)) (take count levels.now) }
{
    let mut low = 0;
    let mut high = count;
    // the levels before `low` stand nearer the top than the price, and those from `high` on do not
    'find: while low < high {
        let middle = low + ((high - low) >> 1);
        if is_ahead(side, decimal::compare(price_of(levels[middle]), price)) {
            low = middle + 1;
        } else {
            high = middle;
        }
    }
    low
}

// A level put in at a place of the first `count` levels; those from there on move up.
fn insert(levels: &mut [Level; MAX_WORKING], count: usize, at: usize, new: Level)
    requires { (at ≤ count) × (count < max_working) }
    ensures { take (count + 1) levels.new ≡ insert (take count levels.old) at new }
{
    levels.copy_within(at..count, at + 1);
    levels[at] = new;
}

// The level at a place taken out of the first `count` levels; those behind it move down.
fn remove(levels: &mut [Level; MAX_WORKING], count: usize, at: usize)
    requires { (at < count) × (count ≤ max_working) }
    ensures { take (count - 1) levels.new ≡ remove (take count levels.old) at }
{
    levels.copy_within(at + 1..count, at);
}
