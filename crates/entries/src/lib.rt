// The entries of a message, read once, where they lie: an entry is an array that begins with two strings, a price and a size. What else it
// has is its form. What each says goes into a buffer that is lent, in the order of the message; what was met is counted.
//
// Any position may be asked for. Each answer has the position past the value there, whatever it is,
// or 0 where it is not JSON, so that one walk over a message finds out whether it is JSON and reads it.
//
// `depth` is how deep arrays and objects may nest in what is read.
//
//     let read = entries::entries_at(s, at, SIDE_DEPTH, Form::Triple, Side::Bids, entries::none_yet(), &mut buffer);
//     edit::entry_in(&buffer, 0)     // the first of them, if read.tally.bids is not 0
#![tactic(auto)]

ghost use Rattle.std.specs.Prelude.{◌≡◌, IfSome, true, false, ◌||◌, suc, ◌+◌, ◌≤◌, ◌<◌, ◌^◌, length, None};
ghost use Rattle.text.specs.Text.{byte_at};
ghost use Rattle.decimal.specs.Decimal.{number, read};
ghost use Rattle.decimal.specs.Reads.{parsed};
ghost use Rattle.edit.specs.Buffer.{buffer_words};
ghost use Rattle.json_tokens.specs.Bytes.{open_array};
ghost use Rattle.json_tokens.specs.Ends.{end_of};
ghost use Rattle.json_values.specs.Json.{value};
ghost use Rattle.json_values.specs.Names.{inner};
ghost use Rattle.entries.specs.Rows.{is_bad_price, is_bad_size, number_in};
ghost use Rattle.entries.specs.Found.{entry_place_of, entry_place_at, Quoted, Laid};
ghost use Rattle.entries.specs.Tally.{none_yet, told_not, closed, earliest, with_entry, Counted, Met};
ghost use Rattle.entries.specs.Front.{Front, RestEnd, EntryEnd, EndedAt};
ghost use Rattle.entries.specs.Decimals.{QuotedAt, TwoDecimals};

use decimal::{Decimal, parse, parse_at};
use edit::{BUFFER_WORDS, Side, put};
use json_tokens::{OPEN_ARRAY, QUOTE, array_close_end, comma_end, skip_blanks, string_end};
use json_values::{MAX_DEPTH, value_end};
use text::byte_at;

// How deep arrays and objects may nest in an entry of a message of dialect K or M.
pub const ENTRY_DEPTH: usize = MAX_DEPTH - 3;

// What makes an array an entry.
#[derive(Clone, Copy)]
pub enum Form {
    // Three elements or more, the first three strings: dialect K.
    Triple,
    // Two strings and no more: dialect M.
    Pair,
}

// What stands at a position, as an entry.
#[derive(Clone, Copy)]
pub struct EntryPlace {
    // Past the value, or 0 where it is not JSON.
    pub end: usize,
    // Where the texts of the price and the size lie, quotes included.
    pub price_from: usize,
    pub price_to: usize,
    pub size_from: usize,
    pub size_to: usize,
    // Whether the value is an entry. If not, the positions of the texts are 0.
    pub well_formed: bool,
}

// What was met of the entries of a message so far.
#[derive(Clone, Copy)]
pub struct Tally {
    pub bids: usize,
    pub asks: usize,
    // Where the first entry begins whose price is no decimal or zero or whose size is no decimal, or 0 where there is none.
    pub broken_at: usize,
    // The same with a size of zero counted too, which a snapshot must not have.
    pub strict_at: usize,
    // Whether all that was met were arrays of entries. If not, the rest says nothing.
    pub well_formed: bool,
}

// What was met once the value at a position was read.
#[derive(Clone, Copy)]
pub struct Entries {
    // Past the value, or 0 where it is not JSON.
    pub end: usize,
    pub tally: Tally,
}

// The price and the size of an entry, and the position past the size.
#[derive(Clone, Copy)]
struct Amounts {
    price: Decimal,
    size: Decimal,
    end: usize,
}

// A decimal in quotes, and the position past them.
#[derive(Clone, Copy)]
struct QuotedDecimal {
    decimal: Decimal,
    end: usize,
}

// No entry was met yet.
pub fn none_yet() -> Tally
    ensures { result ≡ none_yet }
{
    Tally {
        bids: 0,
        asks: 0,
        broken_at: 0,
        strict_at: 0,
        well_formed: true,
    }
}

// The value at `at` as an array of entries of one side, after those that were met before. They are put into the buffer behind these.
pub fn entries_at(
    s: &[u8],
    at: usize,
    depth: usize,
    form: Form,
    side: Side,
    before: Tally,
    buffer: &mut [u64; BUFFER_WORDS],
) -> Entries
    requires { (2 ≤ depth) × (before.bids + before.asks ≤ at) × (length buffer.old ≡ buffer_words) }
    ensures { Met 0 s.now depth form side before at buffer.old buffer.new result }
{
    if byte_at(s, at) != OPEN_ARRAY {
        return told_not(value_end(s, at, depth).unwrap_or(0));
    }
    let read = entries_in(&s[at..], at, depth, form, side, before, buffer);
    if read.end == 0 {
        return told_not(0);
    }
    let tally = read.tally;
    Entries {
        end: at + read.end,
        tally,
    }
}

// The value at `at` as an entry.
pub fn entry_at(s: &[u8], at: usize, depth: usize, form: Form) -> EntryPlace
    requires { 1 ≤ depth }
    ensures { result ≡ entry_place_at form depth s.now at }
{
    let front = two_strings(s, at);
    if front.well_formed {
        return match form {
            Form::Triple => ended_at(s, at, depth, front, triple_end(s, front.end, depth - 1)),
            Form::Pair => ended_at(s, at, depth, front, array_close_end(s, front.end)),
        };
    }
    passed_over(s, at, depth)
}

// What the string from `from` to `to`, quotes included, says. The decimal is read where it lies.
pub fn parse_quoted(s: &[u8], from: usize, to: usize) -> Option<Decimal>
    requires { Quoted s.now from to }
    ensures { parsed result ≡ read (inner s.now (record { from = from; to = to })) }
{
    let first = from + 1;
    let last = to - 1;
    parse(&s[first..last])
}

// Whether the text of a price breaks a rule of decimals, by what it says.
#[tactic(auto, unfolding(crate::specs::Rows::is_bad_price, decimal::specs::Reads::parsed))]
pub fn is_bad_price(price: Option<Decimal>) -> bool
    ensures { result ≡ is_bad_price (parsed price) }
{
    match price {
        Some(d) => decimal::is_zero(d),
        None => true,
    }
}

// The same of a size: in a snapshot it must not be zero either.
#[tactic(auto, unfolding(crate::specs::Rows::is_bad_size, decimal::specs::Reads::parsed))]
pub fn is_bad_size(size: Option<Decimal>, snapshot: bool) -> bool
    ensures { result ≡ is_bad_size snapshot (parsed size) }
{
    match size {
        Some(d) => snapshot && decimal::is_zero(d),
        None => true,
    }
}

// ---- an array of entries

// The array of entries that the text begins with, which stands at `base` of its message.
fn entries_in(
    s: &[u8],
    base: usize,
    depth: usize,
    form: Form,
    side: Side,
    before: Tally,
    buffer: &mut [u64; BUFFER_WORDS],
) -> Entries
    requires { (2 ≤ depth) × (before.bids + before.asks ≤ base) × (base + length s.now < 2 ^ 63) × (byte_at s.now 0 ≡ open_array) × (length buffer.old ≡ buffer_words) }
    ensures { Met base s.now depth form side before 0 buffer.old buffer.new result }
{
    if let Some(end) = array_close_end(s, 1) {
        return Entries { end, tally: before };
    }
    let mut i = skip_blanks(s, 1);
    let mut tally = before;
    loop {
        let more = next_entry(s, i, base, depth - 1, form, side, tally, buffer);
        let past = more.end;
        if past == 0 {
            return told_not(0);
        }
        let Some(next) = comma_end(s, past) else {
            return closed(more, array_close_end(s, past));
        };
        tally = more.tally;
        i = next;
    }
}

// What was met in an array that ends at `end`, or not JSON.
#[tactic(auto, unfolding(crate::specs::Tally::closed))]
fn closed(met: Entries, end: Option<usize>) -> Entries
    ensures { result ≡ closed end met }
{
    match end {
        Some(end) => Entries {
            end,
            tally: met.tally,
        },
        None => told_not(0),
    }
}

// What was met, and the entry at `at` more. Most entries have two decimals, which are read in one go on the way to the entry's end;
// any other is found first. Where the value there is not JSON, the end is 0.
fn next_entry(
    s: &[u8],
    at: usize,
    base: usize,
    depth: usize,
    form: Form,
    side: Side,
    before: Tally,
    buffer: &mut [u64; BUFFER_WORDS],
) -> Entries
    requires { (1 ≤ depth) × (before.bids + before.asks ≤ base + at) × (base + length s.now < 2 ^ 63) × (length buffer.old ≡ buffer_words) }
    ensures { Counted s.now side before (base + at) (entry_place_at form depth s.now at) buffer.old buffer.new result }
{
    if let Some(front) = two_amounts(s, at) {
        if let Some(end) = entry_end(s, front.end, depth, form) {
            let price = front.price;
            let size = front.size;
            put(buffer, before.bids + before.asks, side, price, size);
            let broken = decimal::is_zero(price);
            let strict = broken || decimal::is_zero(size);
            let tally = with_entry(before, side, base + at, broken, strict);
            return Entries { end, tally };
        }
    }
    let found = entry_at(s, at, depth, form);
    if found.end == 0 {
        return told_not(0);
    }
    any_entry(s, base + at, found, side, before, buffer)
}

// The same for the entry that was found there, whatever its strings hold; `at` is its place in the message.
fn any_entry(
    s: &[u8],
    at: usize,
    found: EntryPlace,
    side: Side,
    before: Tally,
    buffer: &mut [u64; BUFFER_WORDS],
) -> Entries
    requires { Laid s.now found × (before.bids + before.asks < 2 ^ 63) × (length buffer.old ≡ buffer_words) }
    ensures { Counted s.now side before at found buffer.old buffer.new result }
{
    if found.well_formed {
        let price = parse_quoted(s, found.price_from, found.price_to);
        let size = parse_quoted(s, found.size_from, found.size_to);
        put(
            buffer,
            before.bids + before.asks,
            side,
            number_of(price),
            number_of(size),
        );
        let bad = is_bad_price(price);
        let broken = bad || is_bad_size(size, false);
        let strict = bad || is_bad_size(size, true);
        let tally = with_entry(before, side, at, broken, strict);
        return Entries {
            end: found.end,
            tally,
        };
    }
    told_not(found.end)
}

// What was met, and one entry more, which begins at `at`.
fn with_entry(before: Tally, side: Side, at: usize, broken: bool, strict: bool) -> Tally
    requires { before.bids + before.asks < 2 ^ 63 }
    ensures { result ≡ with_entry before side at broken strict }
{
    let mut tally = before;
    match side {
        Side::Bids => {
            tally.bids += 1;
        }
        Side::Asks => {
            tally.asks += 1;
        }
    }
    tally.broken_at = earliest(before.broken_at, broken, at);
    tally.strict_at = earliest(before.strict_at, strict, at);
    tally
}

// Where the first of some kind begins, if one more begins at `at`.
#[tactic(auto, unfolding(crate::specs::Tally::earliest))]
fn earliest(known: usize, is_one: bool, at: usize) -> usize
    ensures { result ≡ earliest known is_one at }
{
    if known == 0 && is_one { at } else { known }
}

// A value that ends at `end` and is no array of entries.
fn told_not(end: usize) -> Entries
    ensures { result ≡ told_not end }
{
    Entries {
        end,
        tally: Tally {
            bids: 0,
            asks: 0,
            broken_at: 0,
            strict_at: 0,
            well_formed: false,
        },
    }
}

// ---- one entry

// The two strings that the array at `at` begins with, and where the second of them ends.
fn two_strings(s: &[u8], at: usize) -> EntryPlace
    ensures { Front s.now at result }
{
    if byte_at(s, at) != OPEN_ARRAY {
        return no_entry(0);
    }
    let price_from = skip_blanks(s, at + 1);
    let Some(price_to) = string_end(s, price_from) else {
        return no_entry(0);
    };
    let Some(size_from) = comma_end(s, price_to) else {
        return no_entry(0);
    };
    let Some(size_to) = string_end(s, size_from) else {
        return no_entry(0);
    };
    EntryPlace {
        end: size_to,
        well_formed: true,
        price_from,
        price_to,
        size_from,
        size_to,
    }
}

// Past the entry whose second string ends at `at`, if what follows fits. It is inlined into the loops that read entries;
// `triple_end`, which `entry_at` calls too, is not, and a pair does not pay for it.
fn entry_end(s: &[u8], at: usize, depth: usize, form: Form) -> Option<usize>
    requires { 1 ≤ depth }
    ensures { EntryEnd form depth s.now at result }
{
    match form {
        Form::Triple => triple_end(s, at, depth - 1),
        Form::Pair => array_close_end(s, at),
    }
}

// The same of a triple, whose elements have this depth: a third string, and whatever else the array has.
fn triple_end(s: &[u8], at: usize, depth: usize) -> Option<usize>
    ensures { EntryEnd Form.Triple (suc depth) s.now at result }
{
    let third = comma_end(s, at)?;
    let past = string_end(s, third)?;
    rest_end(s, past, depth)
}

// Past the array that has an element which ends at `at`; the elements have this depth.
fn rest_end(s: &[u8], at: usize, depth: usize) -> Option<usize>
    ensures { RestEnd depth s.now at result }
{
    let mut end = at;
    while let Some(next) = comma_end(s, end) {
        end = value_end(s, next, depth)?;
    }
    array_close_end(s, end)
}

// The value at `at`, which is no entry.
fn passed_over(s: &[u8], at: usize, depth: usize) -> EntryPlace
    ensures { result ≡ entry_place_of (end_of (value depth s.now at)) None }
{
    no_entry(value_end(s, at, depth).unwrap_or(0))
}

// The entry at `at` that has this front and ends at `end`. Without an end it is none, and the value is passed over.
fn ended_at(s: &[u8], at: usize, depth: usize, front: EntryPlace, end: Option<usize>) -> EntryPlace
    ensures { EndedAt depth s.now at front end result }
{
    let Some(end) = end else {
        return passed_over(s, at, depth);
    };
    EntryPlace {
        end,
        well_formed: true,
        price_from: front.price_from,
        price_to: front.price_to,
        size_from: front.size_from,
        size_to: front.size_to,
    }
}

// A value that ends at `end` and is no entry.
fn no_entry(end: usize) -> EntryPlace
    ensures { result ≡ entry_place_of end None }
{
    EntryPlace {
        end,
        well_formed: false,
        price_from: 0,
        price_to: 0,
        size_from: 0,
        size_to: 0,
    }
}

// ---- its price and its size

// The decimal that was read, or 0.
#[tactic(auto, unfolding(crate::specs::Rows::number_in, decimal::specs::Reads::parsed))]
pub fn number_of(text: Option<Decimal>) -> Decimal
    ensures { number result ≡ number_in (parsed text) }
{
    match text {
        Some(d) => d,
        None => decimal::zero(),
    }
}

// The two decimals in quotes that the array at `at` begins with, if they are there, and the position past the second.
fn two_amounts(s: &[u8], at: usize) -> Option<Amounts>
    ensures { IfSome result (TwoDecimals s.now at) }
{
    if byte_at(s, at) != OPEN_ARRAY {
        return None;
    }
    let first = quoted_decimal(s, skip_blanks(s, at + 1))?;
    let next = comma_end(s, first.end)?;
    let second = quoted_decimal(s, next)?;
    Some(Amounts {
        price: first.decimal,
        size: second.decimal,
        end: second.end,
    })
}

// The decimal in quotes at `at`, if one is there. Digits and a point stand for themselves in a string, so that it is read in one go.
fn quoted_decimal(s: &[u8], at: usize) -> Option<QuotedDecimal>
    ensures { IfSome result (QuotedAt s.now at) }
{
    if byte_at(s, at) != QUOTE {
        return None;
    }
    let front = parse_at(s, at + 1)?;
    if byte_at(s, front.end) != QUOTE {
        return None;
    }
    Some(QuotedDecimal {
        decimal: front.decimal,
        end: front.end + 1,
    })
}
