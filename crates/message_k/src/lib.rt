// Messages of dialect K: an array of a whole number, one or two objects, the channel and the pair.
//
// `k_message` passes over a message once. It finds out whether it is JSON, and collects what every check needs, so that the first
// refusal that fits is chosen afterwards, by the crate above.
//
//     let told = message_k::k_message(s, json_tokens::skip_blanks(s, 0), 10, b"XBT/USD");
//     if told.end == 0 { .. }
#![tactic(auto)]

ghost use Rattle.std.specs.Prelude.{◌≡◌, ◌++◌, ◌≤◌, ◌<◌, length, Some, is_some};
ghost use Rattle.text.specs.Text.{ascii};
ghost use Rattle.decimal.specs.Digits.{written};
ghost use Rattle.json_values.specs.Json.{elements, value};
ghost use Rattle.json_values.specs.Names.{means};
ghost use Rattle.entries.specs.Places.{quoted_checksum_at, whole_at};
ghost use Rattle.layout.specs.Depths.{item_depth, side_depth};
ghost use Rattle.edit.specs.Buffer.{buffer_words};
ghost use Rattle.entries.specs.Tally.{met};
ghost use Rattle.layout.specs.Scan.{Scanned};
ghost use Rattle.message_k.specs.LayoutK.{envelope_k};
ghost use Rattle.message_k.specs.MembersK.{more_summed, MemberRead, EntriesRead, SumRead, no_members, closed_at, ObjectRead, has_more, snapshot_by, update_by, outline_by};
ghost use Rattle.message_k.specs.PartsK.{up_to_six, no_outer, with_outer, no_parts, PartsRead, framed_as, one_object, two_objects};

use decimal::{parse_checksum, parse_whole};
use edit::{BUFFER_WORDS, Side};
use entries::{Form, Tally, entries_at, none_yet};
use json_tokens::{
    OPEN_ARRAY, OPEN_OBJECT, QUOTE, array_close_end, colon_end, comma_end, object_close_end,
    skip_blanks, string_end,
};
use json_values::{MAX_DEPTH, is_name, item_end, value_end};
use layout::{
    ITEM_DEPTH, Kind, MemberSpan, Outline, SIDE_DEPTH, Scan, few_more, no_member_span, no_outline,
    not_framed, outline_of, with_member_span,
};
use text::byte_at;

// The member `c`.
#[derive(Clone, Copy)]
struct Sum {
    mark: MemberSpan,
    // The checksum that the last one holds, and whether it is a string that holds one.
    sum: u32,
    well_formed: bool,
}

// What is told of one object, or of two together.
#[derive(Clone, Copy)]
struct Members {
    // Past the value, or 0 where it is not JSON.
    end: usize,
    // How often `as`, `bs`, `a` and `b` were met: 0, 1, or 2 for more often.
    snapshot_asks: usize,
    snapshot_bids: usize,
    asks: usize,
    bids: usize,
    checksum: Sum,
    // The entries that these hold.
    tally: Tally,
    // Whether the value is an object. If not, the rest but for the end says nothing.
    is_object: bool,
}

// What is told of the elements of the message but for the objects.
#[derive(Clone, Copy)]
struct Outer {
    // How many there are, up to six.
    count: usize,
    // The last two.
    channel_from: usize,
    channel_to: usize,
    pair_from: usize,
    pair_to: usize,
    // Whether the first is a whole number.
    whole: bool,
}

// What is told of the elements of the message.
#[derive(Clone, Copy)]
struct Parts {
    // Past the array, or 0 where it is not JSON.
    end: usize,
    outer: Outer,
    // The second element, and the second and the third together.
    one: Members,
    two: Members,
}

// The message at `at`, to a K book of that depth and name. Its entries go into the buffer.
pub fn k_message(
    s: &[u8],
    at: usize,
    depth: usize,
    name: &[u8],
    buffer: &mut [u64; BUFFER_WORDS],
) -> Scan
    requires { (10 ≤ depth) × (depth ≤ 100) × (length buffer.old ≡ buffer_words) }
    ensures { Scanned (envelope_k depth name.now) s.now at buffer.new result }
{
    if byte_at(s, at) != OPEN_ARRAY {
        return not_framed(value_end(s, at, MAX_DEPTH).unwrap_or(0));
    }
    let parts = k_parts(s, at + 1, buffer);
    let outer = parts.outer;
    let outline = match outer.count {
        4 => one_object(outer.whole, parts.one),
        5 => two_objects(outer.whole, parts.one, parts.two),
        _ => return not_framed(parts.end),
    };
    framed(s, parts.end, outer, depth, name, outline)
}

// The elements of the array whose bracket ends at `at`. The second and the third may be objects.
fn k_parts(s: &[u8], at: usize, buffer: &mut [u64; BUFFER_WORDS]) -> Parts
    requires { length buffer.old ≡ buffer_words }
    ensures { PartsRead s.now (elements (value item_depth s.now) s.now at) buffer.new result }
{
    if let Some(end) = array_close_end(s, at) {
        return no_parts(end);
    }
    let mut i = skip_blanks(s, at);
    let mut parts = no_parts(0);
    loop {
        let outer = parts.outer;
        let past = match outer.count {
            1 => {
                parts.one = k_object(s, no_members(0), i, buffer);
                parts.one.end
            }
            2 => {
                parts.two = k_object(s, parts.one, i, buffer);
                parts.two.end
            }
            _ => item_end(s, i, ITEM_DEPTH).unwrap_or(0),
        };
        if past == 0 {
            return no_parts(0);
        }
        parts.outer = pass(s, outer, i, past);
        let Some(next) = comma_end(s, past) else {
            let Some(end) = array_close_end(s, past) else {
                return no_parts(0);
            };
            parts.end = end;
            return parts;
        };
        i = next;
    }
}

// One more element, from `from` to `to`.
#[tactic(auto, unfolding(crate::specs::PartsK::with_outer), using(std::proofs::lemmas::Bool::Decides::nat_tests))]
fn pass(s: &[u8], outer: Outer, from: usize, to: usize) -> Outer
    requires { value item_depth s.now from ≡ Some to }
    ensures { result ≡ with_outer s.now outer (record { from = from; to = to }) }
{
    let whole = if outer.count == 0 {
        is_whole(s, from, to)
    } else {
        outer.whole
    };
    Outer {
        count: up_to_six(outer.count),
        channel_from: outer.pair_from,
        channel_to: outer.pair_to,
        pair_from: from,
        pair_to: to,
        whole,
    }
}

#[tactic(auto, unfolding(crate::specs::PartsK::up_to_six), using(std::proofs::lemmas::Bool::Decides::nat_tests))]
fn up_to_six(n: usize) -> usize
    ensures { result ≡ up_to_six n }
{
    if 6 <= n { 6 } else { n + 1 }
}

fn no_outer() -> Outer
    ensures { result ≡ no_outer }
{
    Outer {
        count: 0,
        channel_from: 0,
        channel_to: 0,
        pair_from: 0,
        pair_to: 0,
        whole: false,
    }
}

// An array of no elements that ends at `end`.
fn no_parts(end: usize) -> Parts
    ensures { result ≡ no_parts end }
{
    Parts {
        end,
        outer: no_outer(),
        one: no_members(0),
        two: no_members(0),
    }
}

// Whether the value from `from` to `to` is a whole number.
fn is_whole(s: &[u8], from: usize, to: usize) -> bool
    requires { value item_depth s.now from ≡ Some to }
    ensures { result ≡ is_some (whole_at s.now (record { from = from; to = to })) }
{
    parse_whole(&s[from..to]).is_some()
}

// The value at `at` as an object, with `before` told of the objects before it.
fn k_object(s: &[u8], before: Members, at: usize, buffer: &mut [u64; BUFFER_WORDS]) -> Members
    requires { (met before.tally ≤ at) × (length buffer.old ≡ buffer_words) }
    ensures { ObjectRead s.now before at buffer.old buffer.new result }
{
    if byte_at(s, at) != OPEN_OBJECT {
        return no_members(value_end(s, at, ITEM_DEPTH).unwrap_or(0));
    }
    if let Some(end) = object_close_end(s, at + 1) {
        return closed(before, end);
    }
    let mut i = skip_blanks(s, at + 1);
    let mut members = before;
    loop {
        let Some(name_to) = string_end(s, i) else {
            return no_members(0);
        };
        let Some(from) = colon_end(s, name_to) else {
            return no_members(0);
        };
        let more = k_member(s, members, i, name_to, from, buffer);
        let to = more.end;
        if to == 0 {
            return no_members(0);
        }
        let Some(next) = comma_end(s, to) else {
            let Some(end) = object_close_end(s, to) else {
                return no_members(0);
            };
            return closed(more, end);
        };
        members = by_fields(more);
        i = next;
    }
}

// What was told of the members, and the one whose name lies from `name_from` to `name_to` and whose value begins at `from`.
// `as` and `bs` hold a snapshot's asks and bids, `a` and `b` an update's, `c` a checksum.
fn k_member(
    s: &[u8],
    members: Members,
    name_from: usize,
    name_to: usize,
    from: usize,
    buffer: &mut [u64; BUFFER_WORDS],
) -> Members
    requires { (met members.tally ≤ from) × (length buffer.old ≡ buffer_words) }
    ensures { MemberRead s.now members (record { from = name_from; to = name_to }) from buffer.old buffer.new result }
{
    let mut next = members;
    next.is_object = true;
    if is_name(s, name_from, name_to, b"c") {
        return with_checksum(s, next, from);
    }
    if is_name(s, name_from, name_to, b"a") {
        next.asks = few_more(next.asks);
        return with_entries(s, next, from, Side::Asks, buffer);
    }
    if is_name(s, name_from, name_to, b"b") {
        next.bids = few_more(next.bids);
        return with_entries(s, next, from, Side::Bids, buffer);
    }
    if is_name(s, name_from, name_to, b"as") {
        next.snapshot_asks = few_more(next.snapshot_asks);
        return with_entries(s, next, from, Side::Asks, buffer);
    }
    if is_name(s, name_from, name_to, b"bs") {
        next.snapshot_bids = few_more(next.snapshot_bids);
        return with_entries(s, next, from, Side::Bids, buffer);
    }
    next.end = value_end(s, from, SIDE_DEPTH).unwrap_or(0);
    next
}

// What was told of the members, and the entries of one side that the value at `from` holds.
fn with_entries(
    s: &[u8],
    members: Members,
    from: usize,
    side: Side,
    buffer: &mut [u64; BUFFER_WORDS],
) -> Members
    requires { (met members.tally ≤ from) × (length buffer.old ≡ buffer_words) }
    ensures { EntriesRead s.now members from side buffer.old buffer.new result }
{
    let read = entries_at(
        s,
        from,
        SIDE_DEPTH,
        Form::Triple,
        side,
        members.tally,
        buffer,
    );
    let checksum = members.checksum;
    let tally = read.tally;
    Members {
        end: read.end,
        snapshot_asks: members.snapshot_asks,
        snapshot_bids: members.snapshot_bids,
        asks: members.asks,
        bids: members.bids,
        checksum,
        tally,
        is_object: members.is_object,
    }
}

// What was told of the members, and one more `c`, whose value begins at `from`.
fn with_checksum(s: &[u8], members: Members, from: usize) -> Members
    ensures { SumRead s.now members from result }
{
    let mut next = members;
    let Some(end) = item_end(s, from, SIDE_DEPTH) else {
        next.end = 0;
        return next;
    };
    next.end = end;
    next.checksum = summed(s, next.checksum, from, end);
    next
}

// One more member `c`, whose value lies from `from` to `to`.
#[tactic(auto, unfolding(crate::specs::MembersK::more_summed))]
fn summed(s: &[u8], sum: Sum, from: usize, to: usize) -> Sum
    requires { value side_depth s.now from ≡ Some to }
    ensures { result ≡ more_summed s.now sum (record { from = from; to = to }) }
{
    let read = quoted_checksum(s, from, to);
    Sum {
        mark: with_member_span(sum.mark, from, to),
        well_formed: read.is_some(),
        sum: read.unwrap_or(0),
    }
}

// The checksum that the value from `from` to `to` holds, if it is a string that holds one.
fn quoted_checksum(s: &[u8], from: usize, to: usize) -> Option<u32>
    requires { value side_depth s.now from ≡ Some to }
    ensures { result ≡ quoted_checksum_at s.now (record { from = from; to = to }) }
{
    if byte_at(s, from) != QUOTE {
        return None;
    }
    parse_checksum(&s[from + 1..to - 1])
}

// A value that ends at `end` and is no object.
fn no_members(end: usize) -> Members
    ensures { result ≡ no_members end }
{
    Members {
        end,
        is_object: false,
        snapshot_asks: 0,
        snapshot_bids: 0,
        asks: 0,
        bids: 0,
        checksum: Sum {
            mark: no_member_span(),
            well_formed: false,
            sum: 0,
        },
        tally: none_yet(),
    }
}

// An object that ends at `end`.
fn closed(members: Members, end: usize) -> Members
    ensures { result ≡ closed_at end members }
{
    let mut next = by_fields(members);
    next.end = end;
    next.is_object = true;
    next
}

// The same, made of its fields: a copy of the whole carries what lies between them too, and a load of that waits for the stores before it.
fn by_fields(members: Members) -> Members
    ensures { result ≡ members }
{
    let checksum = members.checksum;
    let mark = checksum.mark;
    let tally = members.tally;
    Members {
        end: members.end,
        snapshot_asks: members.snapshot_asks,
        snapshot_bids: members.snapshot_bids,
        asks: members.asks,
        bids: members.bids,
        checksum: Sum {
            mark,
            sum: checksum.sum,
            well_formed: checksum.well_formed,
        },
        tally: Tally {
            bids: tally.bids,
            asks: tally.asks,
            broken_at: tally.broken_at,
            strict_at: tally.strict_at,
            well_formed: tally.well_formed,
        },
        is_object: members.is_object,
    }
}

// The layout of a message of one object; `whole` is whether its first element is a whole number.
#[tactic(auto, unfolding(crate::specs::PartsK::one_object))]
fn one_object(whole: bool, one: Members) -> Outline
    ensures { result ≡ one_object whole one }
{
    if whole && one.is_object {
        let none = no_members(0);
        let update = is_update(has_more(none, one), none, one);
        return k_outline(is_snapshot(one), update, one);
    }
    no_outline()
}

// The layout of a message of two objects; `two` is told of both.
#[tactic(auto, unfolding(crate::specs::PartsK::two_objects))]
fn two_objects(whole: bool, one: Members, two: Members) -> Outline
    ensures { result ≡ two_objects whole one two }
{
    if whole && one.is_object && two.is_object {
        let none = no_members(0);
        let each = has_more(none, one) && has_more(one, two);
        return k_outline(false, is_update(each, one, two), two);
    }
    no_outline()
}

// Whether an object has `a` or `b`, where `before` is told before it and `after` with it. Counts stop at two, so this says
// something only where each name is met once at the most.
#[tactic(auto, unfolding(crate::specs::MembersK::has_more), using(std::proofs::lemmas::Bool::Decides::nat_tests))]
fn has_more(before: Members, after: Members) -> bool
    ensures { result ≡ has_more before after }
{
    before.asks < after.asks || before.bids < after.bids
}

// Whether the one object is a snapshot's.
#[tactic(auto, unfolding(crate::specs::MembersK::snapshot_by), using(std::proofs::lemmas::Bool::Decides::nat_tests))]
fn is_snapshot(one: Members) -> bool
    ensures { result ≡ snapshot_by one }
{
    one.snapshot_asks == 1
        && one.snapshot_bids == 1
        && one.asks == 0
        && one.bids == 0
        && one.checksum.mark.times == 0
}

// Whether the objects are an update's: `each` says that each has `a` or `b`, and `before` is told before the last object.
#[tactic(auto, unfolding(crate::specs::MembersK::update_by), using(std::proofs::lemmas::Bool::Decides::nat_tests))]
fn is_update(each: bool, before: Members, all: Members) -> bool
    ensures { result ≡ update_by each before all }
{
    all.asks <= 1
        && all.bids <= 1
        && each
        && all.checksum.mark.times == 1
        && before.checksum.mark.times == 0
        && all.snapshot_asks == 0
        && all.snapshot_bids == 0
}

// The layout of a message whose objects are a snapshot's, an update's or neither.
#[tactic(auto, unfolding(crate::specs::MembersK::outline_by))]
fn k_outline(snapshot: bool, update: bool, all: Members) -> Outline
    ensures { result ≡ outline_by snapshot update all }
{
    if snapshot {
        return outline_of(Kind::Snapshot, all.tally, false, 0, 0);
    }
    if update && all.checksum.well_formed {
        return outline_of(Kind::Update, all.tally, true, all.checksum.sum, 0);
    }
    no_outline()
}

// A message of four or five elements, which ends at `end`.
#[tactic(auto, unfolding(crate::specs::PartsK::ours_by))]
fn framed(s: &[u8], end: usize, outer: Outer, depth: usize, name: &[u8], outline: Outline) -> Scan
    requires { (10 ≤ depth) × (depth ≤ 100) }
    ensures { result ≡ framed_as depth name.now s.now end outer outline }
{
    let channel = is_channel(s, outer.channel_from, outer.channel_to, depth);
    let pair = is_name(s, outer.pair_from, outer.pair_to, name);
    Scan {
        end,
        framed: true,
        ours: channel && pair,
        outline,
    }
}

// Whether the string from `from` to `to` means `book-` and the depth.
fn is_channel(s: &[u8], from: usize, to: usize, depth: usize) -> bool
    requires { (10 ≤ depth) × (depth ≤ 100) }
    ensures { result ≡ means s.now (record { from = from; to = to }) (ascii "book-" ++ written depth) }
{
    if depth < 100 {
        let name = two_digits(depth);
        is_name(s, from, to, &name)
    } else {
        is_name(s, from, to, b"book-100")
    }
}

// `book-` and a depth of two digits.
fn two_digits(depth: usize) -> [u8; 7]
    requires { (10 ≤ depth) × (depth < 100) }
    ensures { result ≡ ascii "book-" ++ written depth }
{
    let tens = b'0' + (depth / 10) as u8;
    let ones = b'0' + (depth % 10) as u8;
    [b'b', b'o', b'o', b'k', b'-', tens, ones]
}
