// A message taken or refused.
ghost use Rattle.std.specs.Prelude.{◌≡◌, ◌&&◌, ◌||◌, not, cond, map, leb};
ghost use Rattle.lifecycle.specs.Lifecycle.{status_of, judged_update, live_lifecycle, refused_lifecycle};
ghost use Rattle.crc32.specs.Table.{ShiftTable};
ghost use Rattle.level.specs.Words.{shown};
ghost use Rattle.level.specs.Kept.{kept_in, held};
ghost use Rattle.edit.specs.declared.Side.TheVariants.{Bids, Asks};
ghost use Rattle.settings.specs.Rules.{rules_of};
ghost use Rattle.sides.specs.Worked.{Sound, side_after};
ghost use Rattle.reference.specs.Reference.{checksum_of};
ghost use Rattle.book.specs.Shown.{book_of, Good, ReceivedIn, ReceivedAs};
ghost use Rattle.book.specs.Taking.{Passed, Ready, SidesAfter, Tried, ForSide, after_in, judged_checksum, weighed_sides, taken_header, refused_as};

use crate::{Answered, Header};
use answer::{Answer, is_taken};
use edit::{BUFFER_WORDS, Side};
use layout::{Outline, is_snapshot};
use level::MAX_WORDS;
use lifecycle::{count_before, is_over, judge, judge_sides, live, refused, updates_after};
use settings::{Dialect, SumText, rules_of};
use side::Applied;
use sides::{apply_entries, is_crossed};

// The book after a message, in the words of its sides that are lent. A refusal gives the words back as they were.
pub fn receive(
    header: Header,
    bids: &mut [u64; MAX_WORDS],
    asks: &mut [u64; MAX_WORDS],
    s: &[u8],
    table: &[u32],
) -> Answered
    requires { Good (book_of bids.old asks.old header) × ShiftTable table.now }
    ensures { ReceivedIn (book_of bids.old asks.old header) s.now bids.new asks.new result }
{
    let settings = header.settings;
    let lifecycle = header.lifecycle;
    let mut buffer = [0; BUFFER_WORDS];
    match judge(settings, lifecycle, header.number, s, &mut buffer) {
        Err(refusal) => refuse(header, refusal),
        Ok(outline) if outline.bids == 0 => {
            take_side(Side::Asks, header, outline, bids, asks, &buffer, table)
        }
        Ok(outline) if outline.asks == 0 => {
            take_side(Side::Bids, header, outline, bids, asks, &buffer, table)
        }
        Ok(outline) => take_both(header, outline, bids, asks, &buffer, table),
    }
}

// A message that passes the checks of its text and has entries for one side alone: only the words of that side are kept for a refusal.
fn take_side(
    own: Side,
    header: Header,
    outline: Outline,
    bids: &mut [u64; MAX_WORDS],
    asks: &mut [u64; MAX_WORDS],
    buffer: &[u64; BUFFER_WORDS],
    table: &[u32],
) -> Answered
    requires { Ready (book_of bids.old asks.old header) outline buffer.now × ShiftTable table.now × ForSide own outline }
    ensures { ReceivedAs (book_of bids.old asks.old header) (after_in (book_of bids.old asks.old header) outline buffer.now) bids.new asks.new result }
{
    let last = match own {
        Side::Bids => *bids,
        Side::Asks => *asks,
    };
    let answered = try_entries(header, outline, bids, asks, buffer, table);
    if !is_taken(answered.answer) {
        match own {
            Side::Bids => *bids = last,
            Side::Asks => *asks = last,
        }
    }
    answered
}

// The same with entries for both.
fn take_both(
    header: Header,
    outline: Outline,
    bids: &mut [u64; MAX_WORDS],
    asks: &mut [u64; MAX_WORDS],
    buffer: &[u64; BUFFER_WORDS],
    table: &[u32],
) -> Answered
    requires { Ready (book_of bids.old asks.old header) outline buffer.now × ShiftTable table.now }
    ensures { ReceivedAs (book_of bids.old asks.old header) (after_in (book_of bids.old asks.old header) outline buffer.now) bids.new asks.new result }
{
    let last_bids = *bids;
    let last_asks = *asks;
    let answered = try_entries(header, outline, bids, asks, buffer, table);
    if !is_taken(answered.answer) {
        *bids = last_bids;
        *asks = last_asks;
    }
    answered
}

// Applies the entries of a message that passes the checks of its text, and weighs what they make of the sides. A refusal leaves the words
// of a side that has entries changed.
fn try_entries(
    header: Header,
    outline: Outline,
    bids: &mut [u64; MAX_WORDS],
    asks: &mut [u64; MAX_WORDS],
    buffer: &[u64; BUFFER_WORDS],
    table: &[u32],
) -> Answered
    requires { Ready (book_of bids.old asks.old header) outline buffer.now × ShiftTable table.now }
    ensures { Tried (book_of bids.old asks.old header) outline buffer.now bids.new asks.new result }
{
    let settings = header.settings;
    let dialect = settings.dialect;
    let entered = enter(header, outline, bids, asks, buffer, table);
    let bid_side = entered.bids;
    let ask_side = entered.asks;
    let answer = weigh(outline, dialect, bid_side, ask_side, bids, asks, table);
    if is_taken(answer) {
        return Answered {
            header: renew(header, outline, bid_side.left, ask_side.left),
            answer,
            moved: bid_side.moved + ask_side.moved,
        };
    }
    refuse(header, answer)
}

// What entries make of the bids and of the asks.
#[derive(Clone, Copy)]
struct Entered {
    bids: Applied,
    asks: Applied,
}

// Applies the entries of a message that passes the checks of its text.
fn enter(
    header: Header,
    outline: Outline,
    bids: &mut [u64; MAX_WORDS],
    asks: &mut [u64; MAX_WORDS],
    buffer: &[u64; BUFFER_WORDS],
    table: &[u32],
) -> Entered
    requires { Passed (book_of bids.old asks.old header) outline buffer.now × ShiftTable table.now }
    ensures { SidesAfter (book_of bids.old asks.old header) outline buffer.now (side_after bids.new result.bids) (side_after asks.new result.asks) }
{
    let settings = header.settings;
    let depth = settings.depth;
    let dialect = settings.dialect;
    let rules = rules_of(dialect);
    let text = rules.text;
    let count = outline.bids + outline.asks;
    let kind = outline.kind;
    let bids_before = count_before(kind, header.bids);
    let bid_side = apply_entries(
        bids,
        bids_before,
        Side::Bids,
        depth,
        text,
        buffer,
        outline.bids,
        count,
        table,
    );
    let asks_before = count_before(kind, header.asks);
    let ask_side = apply_entries(
        asks,
        asks_before,
        Side::Asks,
        depth,
        text,
        buffer,
        outline.asks,
        count,
        table,
    );
    Entered {
        bids: bid_side,
        asks: ask_side,
    }
}

// The header after a message that is taken, which leaves so many bids and asks.
fn renew(header: Header, outline: Outline, bids: usize, asks: usize) -> Header
    ensures { result ≡ taken_header header outline bids asks }
{
    let settings = header.settings;
    let lifecycle = header.lifecycle;
    let kind = outline.kind;
    Header {
        bids,
        asks,
        settings,
        number: outline.number,
        updates: updates_after(kind, header.updates),
        lifecycle: live(lifecycle, kind),
    }
}

// A message that is refused: it moves no level.
fn refuse(header: Header, answer: Answer) -> Answered
    ensures { result ≡ refused_as header answer }
{
    let mut after = header;
    let lifecycle = header.lifecycle;
    after.lifecycle = refused(lifecycle, answer);
    Answered {
        header: after,
        answer,
        moved: 0,
    }
}

// Checks 9, 12, 16 and 13, by what the entries made of the sides: whether some price was met twice, whether levels are over the limit,
// and which levels are left.
fn weigh(
    outline: Outline,
    dialect: Dialect,
    bid_side: Applied,
    ask_side: Applied,
    bids: &[u64; MAX_WORDS],
    asks: &[u64; MAX_WORDS],
    table: &[u32],
) -> Answer
    requires { Sound (rules_of dialect).text Bids (kept_in bids.now bid_side.left) × Sound (rules_of dialect).text Asks (kept_in asks.now ask_side.left) × ShiftTable table.now }
    ensures { result ≡ weighed_sides outline dialect (side_after bids.now bid_side) (side_after asks.now ask_side) }
{
    let kind = outline.kind;
    let rules = rules_of(dialect);
    let replaced = bid_side.replaced | ask_side.replaced;
    let over = (rules.levels < bid_side.count) | (rules.levels < ask_side.count);
    let crossed = is_crossed(bids, bid_side.left, asks, ask_side.left);
    let answer = judge_sides(kind, replaced, is_over(rules.cut, over), crossed);
    if is_taken(answer) {
        return judge_checksum(
            outline,
            dialect,
            bids,
            bid_side.left,
            asks,
            ask_side.left,
            table,
        );
    }
    answer
}

// Check 13.
fn judge_checksum(
    outline: Outline,
    dialect: Dialect,
    bids: &[u64; MAX_WORDS],
    bid_count: usize,
    asks: &[u64; MAX_WORDS],
    ask_count: usize,
    table: &[u32],
) -> Answer
    requires { Sound (rules_of dialect).text Bids (kept_in bids.now bid_count) × Sound (rules_of dialect).text Asks (kept_in asks.now ask_count) × ShiftTable table.now }
    ensures { result ≡ judged_checksum outline dialect (kept_in bids.now bid_count) (kept_in asks.now ask_count) }
{
    if outline.printed
        && outline.checksum != checksum_of(dialect, bids, bid_count, asks, ask_count, table)
    {
        return Answer::WrongChecksum;
    }
    Answer::Taken
}

fn checksum_of(
    dialect: Dialect,
    bids: &[u64; MAX_WORDS],
    bid_count: usize,
    asks: &[u64; MAX_WORDS],
    ask_count: usize,
    table: &[u32],
) -> u32
    requires { Sound (rules_of dialect).text Bids (kept_in bids.now bid_count) × Sound (rules_of dialect).text Asks (kept_in asks.now ask_count) × ShiftTable table.now }
    ensures { result ≡ checksum_of (rules_of dialect) (record { bids = map shown (held (kept_in bids.now bid_count)); asks = map shown (held (kept_in asks.now ask_count)) }) }
{
    let rules = rules_of(dialect);
    let text = rules.text;
    match text {
        SumText::Stripped => {
            checksum::k_checksum(rules.summed, bids, bid_count, asks, ask_count, table)
        }
        SumText::Interleaved => {
            checksum::m_checksum(rules.summed, bids, bid_count, asks, ask_count, table)
        }
    }
}
