// A message of dialect M, read in one walk over its bytes: whether it is JSON, and all that the checks of a message need.
//
// Each member of the message, and of its `data`, is read once, whatever its name, and added to what was met before. The
// layout is decided once all were met.
#![tactic(auto)]

ghost use Rattle.std.specs.Prelude.{◌≡◌, ◌&&◌, eqb, ◌≤◌, ◌+◌, length, None, option_map, unwrap_or};
ghost use Rattle.text.specs.Text.{ascii, byte_at};
ghost use Rattle.json_tokens.specs.Bytes.{open_object, close_object};
ghost use Rattle.json_tokens.specs.Ends.{end_of};
ghost use Rattle.json_tokens.specs.Tokens.{closing};
ghost use Rattle.json_values.specs.Json.{value};
ghost use Rattle.json_values.specs.Names.{means, part};
ghost use Rattle.entries.specs.Places.{and_then, whole_at, checksum_at};
ghost use Rattle.layout.specs.Depths.{item_depth, side_depth};
ghost use Rattle.layout.specs.MemberSpans.{with_member_span, on_hit, member_at, once_at};
ghost use Rattle.edit.specs.Buffer.{buffer_words};
ghost use Rattle.entries.specs.Tally.{met as count, Met};
ghost use Rattle.layout.specs.Scan.{Scanned, not_framed};
ghost use Rattle.message_m.specs.LayoutM.{envelope_m};
ghost use Rattle.message_m.specs.Collected.{no_data, MoreData, DataRead, key_of, is_key, MoreBody, no_members, MoreMembers, numbers_in, body_in, outline_in, linked_outline, scan_in, Placed};

use decimal::{parse_checksum, parse_whole};
use edit::{BUFFER_WORDS, Side};
use entries::{Entries, Form, Tally, entries_at, none_yet};
use json_tokens::{OPEN_OBJECT, colon_end, comma_end, object_close_end, skip_blanks, string_end};
use json_values::{MAX_DEPTH, is_name, item_end, value_end};
use layout::{
    ITEM_DEPTH, Kind, MemberSpan, Outline, SIDE_DEPTH, Scan, few_more, is_snapshot, no_member_span,
    no_outline, not_framed, outline_of, with_member_span,
};
use text::byte_at;

// Which of our names a member of the message has.
#[derive(Clone, Copy, Debug, PartialEq, Eq)]
enum Key {
    Other,
    Channel,
    Product,
    Type,
    Data,
    Checksum,
    // The member `gsn`.
    Number,
    // The member `prev_gsn`.
    Previous,
}

// The value of a member `data`.
#[derive(Clone, Copy)]
struct Data {
    // Past the value, or 0 where it is not JSON.
    end: usize,
    // How often `bids` and `asks` were met in it, if it is an object: 0, 1, or 2 for more often.
    bids: usize,
    asks: usize,
    // The entries that these hold, after those that were met before.
    tally: Tally,
}

// The members `data` that were met.
#[derive(Clone, Copy)]
struct Body {
    // Past the value of the last member, whatever its name, or 0 where it is not JSON.
    end: usize,
    mark: MemberSpan,
    // The value of the last one.
    last: Data,
}

// The members of a message that were met.
#[derive(Clone, Copy)]
struct Members {
    body: Body,
    channel: MemberSpan,
    product: MemberSpan,
    // The members `type`.
    kind: MemberSpan,
    checksum: MemberSpan,
    gsn: MemberSpan,
    // The members `prev_gsn`.
    previous: MemberSpan,
    // Whether some `channel` is `book`, and whether some `product` is the book's name.
    is_book: bool,
    is_product: bool,
}

// The message at `at`, to an M book of that name; `linked` says that an update has to name the sequence number before its own. Its entries
// go into the buffer.
pub fn m_message(
    s: &[u8],
    at: usize,
    linked: bool,
    name: &[u8],
    buffer: &mut [u64; BUFFER_WORDS],
) -> Scan
    requires { length buffer.old ≡ buffer_words }
    ensures { Scanned (envelope_m linked name.now) s.now at buffer.new result }
{
    if byte_at(s, at) != OPEN_OBJECT {
        return not_framed(value_end(s, at, MAX_DEPTH).unwrap_or(0));
    }
    if let Some(end) = object_close_end(s, at + 1) {
        return scan(s, linked, no_members(), end);
    }
    read_members(s, at, linked, name, buffer).unwrap_or(not_framed(0))
}

// The same of an object that has members, or `None` where it is not JSON.
fn read_members(
    s: &[u8],
    at: usize,
    linked: bool,
    name: &[u8],
    buffer: &mut [u64; BUFFER_WORDS],
) -> Option<Scan>
    requires { (byte_at s.now at ≡ open_object) × (closing close_object s.now (at + 1) ≡ None) × (length buffer.old ≡ buffer_words) }
    ensures { Scanned (envelope_m linked name.now) s.now at buffer.new (unwrap_or result (not_framed 0)) }
{
    let mut i = skip_blanks(s, at + 1);
    let mut met = no_members();
    loop {
        let name_to = string_end(s, i)?;
        let from = colon_end(s, name_to)?;
        let next = more_members(s, met, i, name_to, from, name, buffer);
        let to = next.body.end;
        if to == 0 {
            return None;
        }
        let Some(past_comma) = comma_end(s, to) else {
            let end = object_close_end(s, to)?;
            // A copy is handed on, so that what the loop carries can stay in registers.
            let last = next;
            return Some(scan(s, linked, last, end));
        };
        met = next;
        i = past_comma;
    }
}

// No member was met yet.
fn no_members() -> Members
    ensures { result ≡ no_members }
{
    Members {
        body: Body {
            end: 0,
            mark: no_member_span(),
            last: no_data(0, none_yet()),
        },
        is_book: false,
        is_product: false,
        channel: no_member_span(),
        product: no_member_span(),
        kind: no_member_span(),
        checksum: no_member_span(),
        gsn: no_member_span(),
        previous: no_member_span(),
    }
}

// One member more, whose name lies from `first` to `past`, and whose value begins at `from`.
fn more_members(
    s: &[u8],
    met: Members,
    first: usize,
    past: usize,
    from: usize,
    name: &[u8],
    buffer: &mut [u64; BUFFER_WORDS],
) -> Members
    requires { (count met.body.last.tally ≤ from) × (length buffer.old ≡ buffer_words) }
    ensures { MoreMembers name.now s.now met (member_at item_depth s.now first past from) buffer.old buffer.new result }
{
    let key = key_of(s, first, past);
    let body = more_body(s, met.body, key, from, buffer);
    // Of a member with another name only the end is kept; a message may have thousands of them.
    if key == Key::Other {
        return Members { body, ..met };
    }
    let to = body.end;
    Members {
        body,
        is_book: met.is_book || is_book(s, key, from, to),
        is_product: met.is_product || is_product(s, key, from, to, name),
        channel: more_spans(met.channel, key, Key::Channel, from, to),
        product: more_spans(met.product, key, Key::Product, from, to),
        kind: more_spans(met.kind, key, Key::Type, from, to),
        checksum: more_spans(met.checksum, key, Key::Checksum, from, to),
        gsn: more_spans(met.gsn, key, Key::Number, from, to),
        previous: more_spans(met.previous, key, Key::Previous, from, to),
    }
}

// Which of our names the string from `from` to `to` means.
#[tactic(auto, unfolding(crate::specs::Collected::key_of))]
fn key_of(s: &[u8], from: usize, to: usize) -> Key
    ensures { result ≡ key_of s.now (record { from = from; to = to }) }
{
    if is_name(s, from, to, b"channel") {
        Key::Channel
    } else if is_name(s, from, to, b"product") {
        Key::Product
    } else if is_name(s, from, to, b"type") {
        Key::Type
    } else if is_name(s, from, to, b"data") {
        Key::Data
    } else if is_name(s, from, to, b"checksum") {
        Key::Checksum
    } else if is_name(s, from, to, b"gsn") {
        Key::Number
    } else if is_name(s, from, to, b"prev_gsn") {
        Key::Previous
    } else {
        Key::Other
    }
}

// The members of one name, and one member more.
#[tactic(auto, unfolding(layout::specs::MemberSpans::on_hit))]
fn more_spans(mark: MemberSpan, key: Key, name: Key, from: usize, to: usize) -> MemberSpan
    ensures { result ≡ on_hit (is_key key name) with_member_span mark (record { from = from; to = to }) }
{
    if key == name {
        with_member_span(mark, from, to)
    } else {
        mark
    }
}

// Whether the member is a `channel` that is `book`.
fn is_book(s: &[u8], key: Key, from: usize, to: usize) -> bool
    ensures { result ≡ (is_key key Key.Channel && means s.now (record { from = from; to = to }) (ascii "book")) }
{
    key == Key::Channel && is_name(s, from, to, b"book")
}

// Whether the member is a `product` that is the book's name.
fn is_product(s: &[u8], key: Key, from: usize, to: usize, name: &[u8]) -> bool
    ensures { result ≡ (is_key key Key.Product && means s.now (record { from = from; to = to }) name.now) }
{
    key == Key::Product && is_name(s, from, to, name)
}

// The members `data`, and one member more, whose value is read here, whatever its name.
fn more_body(s: &[u8], body: Body, key: Key, from: usize, buffer: &mut [u64; BUFFER_WORDS]) -> Body
    requires { (count body.last.tally ≤ from) × (length buffer.old ≡ buffer_words) }
    ensures { MoreBody s.now (is_key key Key.Data) body (record { from = from; to = end_of (value item_depth s.now from) }) buffer.old buffer.new result }
{
    let last = body.last;
    if key == Key::Data {
        let data = m_data(s, from, last.tally, buffer);
        return Body {
            end: data.end,
            mark: with_member_span(body.mark, from, data.end),
            last: by_fields(data),
        };
    }
    Body {
        end: item_end(s, from, ITEM_DEPTH).unwrap_or(0),
        mark: body.mark,
        last: by_fields(last),
    }
}

// The same, made of its fields: a copy of the whole carries what lies between them too, and a load of that waits for the stores before it.
fn by_fields(data: Data) -> Data
    ensures { result ≡ «data» }
{
    let tally = data.tally;
    Data {
        end: data.end,
        bids: data.bids,
        asks: data.asks,
        tally: Tally {
            bids: tally.bids,
            asks: tally.asks,
            broken_at: tally.broken_at,
            strict_at: tally.strict_at,
            well_formed: tally.well_formed,
        },
    }
}

// The value at `at`, as that of a member `data`.
fn m_data(s: &[u8], at: usize, before: Tally, buffer: &mut [u64; BUFFER_WORDS]) -> Data
    requires { (count before ≤ at) × (length buffer.old ≡ buffer_words) }
    ensures { DataRead s.now before (record { from = at; to = end_of (value item_depth s.now at) }) buffer.old buffer.new result }
{
    if byte_at(s, at) != OPEN_OBJECT {
        return no_data(value_end(s, at, ITEM_DEPTH).unwrap_or(0), before);
    }
    if let Some(end) = object_close_end(s, at + 1) {
        return no_data(end, before);
    }
    read_sides(s, at, before, buffer).unwrap_or(no_data(0, before))
}

// The same of an object that has members, or `None` where it is not JSON.
fn read_sides(s: &[u8], at: usize, before: Tally, buffer: &mut [u64; BUFFER_WORDS]) -> Option<Data>
    requires { (count before ≤ at) × (byte_at s.now at ≡ open_object) × (closing close_object s.now (at + 1) ≡ None) × (length buffer.old ≡ buffer_words) }
    ensures { DataRead s.now before (record { from = at; to = end_of (value item_depth s.now at) }) buffer.old buffer.new (unwrap_or result (no_data 0 before)) }
{
    let mut i = skip_blanks(s, at + 1);
    let mut met = no_data(0, before);
    loop {
        let name_to = string_end(s, i)?;
        let from = colon_end(s, name_to)?;
        let next = more_data(s, met, i, name_to, from, buffer);
        let to = next.end;
        if to == 0 {
            return None;
        }
        let Some(past_comma) = comma_end(s, to) else {
            let end = object_close_end(s, to)?;
            return Some(Data { end, ..next });
        };
        met = next;
        i = past_comma;
    }
}

// One member more of `data`.
fn more_data(
    s: &[u8],
    met: Data,
    first: usize,
    past: usize,
    from: usize,
    buffer: &mut [u64; BUFFER_WORDS],
) -> Data
    requires { (count met.tally ≤ from) × (length buffer.old ≡ buffer_words) }
    ensures { MoreData s.now met (member_at side_depth s.now first past from) buffer.old buffer.new result }
{
    if is_name(s, first, past, b"bids") {
        let read = side_at(s, from, Side::Bids, met.tally, buffer);
        return Data {
            end: read.end,
            bids: few_more(met.bids),
            asks: met.asks,
            tally: read.tally,
        };
    }
    if is_name(s, first, past, b"asks") {
        let read = side_at(s, from, Side::Asks, met.tally, buffer);
        return Data {
            end: read.end,
            bids: met.bids,
            asks: few_more(met.asks),
            tally: read.tally,
        };
    }
    Data {
        end: item_end(s, from, SIDE_DEPTH).unwrap_or(0),
        ..met
    }
}

// The entries of a side, after those that were met before.
fn side_at(
    s: &[u8],
    at: usize,
    side: Side,
    before: Tally,
    buffer: &mut [u64; BUFFER_WORDS],
) -> Entries
    requires { (count before ≤ at) × (length buffer.old ≡ buffer_words) }
    ensures { Met 0 s.now side_depth Form.Pair side before at buffer.old buffer.new result }
{
    entries_at(s, at, SIDE_DEPTH, Form::Pair, side, before, buffer)
}

// A value that ends at `end` and has no sides; `before` was told before it.
fn no_data(end: usize, before: Tally) -> Data
    ensures { result ≡ no_data end before }
{
    Data {
        end,
        bids: 0,
        asks: 0,
        tally: before,
    }
}

// What the members of a message that ends at `end` tell of it.
#[tactic(auto, unfolding(crate::specs::Collected::scan_in))]
fn scan(s: &[u8], linked: bool, met: Members, end: usize) -> Scan
    requires { Placed s.now met.checksum × Placed s.now met.gsn × Placed s.now met.previous }
    ensures { result ≡ scan_in linked s.now end met }
{
    let outline = m_outline(s, met);
    Scan {
        end,
        framed: true,
        ours: met.is_book && met.is_product,
        outline: linked_outline(s, linked, met.previous, outline),
    }
}

// The layout of a message, where an update may have to name the sequence number before its own.
#[tactic(auto, unfolding(crate::specs::Collected::outline_where, crate::specs::Collected::linked_outline))]
fn linked_outline(s: &[u8], linked: bool, previous: MemberSpan, outline: Outline) -> Outline
    requires { Placed s.now previous }
    ensures { result ≡ linked_outline linked s.now previous outline }
{
    if !linked || !outline.well_formed || is_snapshot(outline.kind) {
        return outline;
    }
    let Some(number) = gsn_of(s, previous) else {
        return no_outline();
    };
    Outline {
        previous: number,
        ..outline
    }
}

// The layout, out of the members that were met.
#[tactic(auto, using(std::proofs::lemmas::Bool::Decides::nat_tests), unfolding(layout::specs::MemberSpans::once_at, entries::specs::Places::and_then, crate::specs::Collected::outline_where, crate::specs::Collected::outline_in, crate::specs::LayoutM::kind_at))]
fn m_outline(s: &[u8], met: Members) -> Outline
    requires { Placed s.now met.checksum × Placed s.now met.gsn }
    ensures { result ≡ outline_in s.now met }
{
    let kind = met.kind;
    if met.channel.times != 1 || met.product.times != 1 || kind.times != 1 {
        return no_outline();
    }
    if is_name(s, kind.from, kind.to, b"snapshot") {
        return body_outline(s, Kind::Snapshot, met);
    }
    if is_name(s, kind.from, kind.to, b"update") {
        return body_outline(s, Kind::Update, met);
    }
    no_outline()
}

// The layout from `data` on.
#[tactic(auto, using(std::proofs::lemmas::Bool::Decides::nat_tests), unfolding(layout::specs::MemberSpans::once_at, crate::specs::Collected::outline_where, crate::specs::Collected::body_in, crate::specs::Collected::sides_in))]
fn body_outline(s: &[u8], kind: Kind, met: Members) -> Outline
    requires { Placed s.now met.checksum × Placed s.now met.gsn }
    ensures { result ≡ body_in s.now kind met }
{
    let body = met.body;
    let data = body.last;
    if body.mark.times != 1 || data.bids != 1 || data.asks != 1 {
        return no_outline();
    }
    numbers_outline(s, kind, data.tally, met.checksum, met.gsn)
}

// The layout from the checksum on.
#[tactic(auto, unfolding(crate::specs::Collected::outline_where, crate::specs::Collected::numbers_in))]
fn numbers_outline(
    s: &[u8],
    kind: Kind,
    tally: Tally,
    checksum: MemberSpan,
    gsn: MemberSpan,
) -> Outline
    requires { Placed s.now checksum × Placed s.now gsn }
    ensures { result ≡ numbers_in s.now kind tally checksum gsn }
{
    let Some(sum) = checksum_of(s, checksum) else {
        return no_outline();
    };
    let Some(number) = gsn_of(s, gsn) else {
        return no_outline();
    };
    outline_of(kind, tally, true, sum, number)
}

// The checksum, if its member was met once and holds one.
#[tactic(auto, unfolding(entries::specs::Places::and_then, entries::specs::Places::checksum_at))]
fn checksum_of(s: &[u8], mark: MemberSpan) -> Option<u32>
    requires { Placed s.now mark }
    ensures { result ≡ and_then (once_at mark) (checksum_at s.now) }
{
    parse_checksum(only_text(s, mark)?)
}

// The sequence number, if its member was met once and holds one.
#[tactic(auto, unfolding(entries::specs::Places::and_then, entries::specs::Places::whole_at))]
fn gsn_of(s: &[u8], mark: MemberSpan) -> Option<u64>
    requires { Placed s.now mark }
    ensures { result ≡ and_then (once_at mark) (whole_at s.now) }
{
    parse_whole(only_text(s, mark)?)
}

// The text of a value, if its member was met once.
#[tactic(auto, using(std::proofs::lemmas::Bool::Decides::nat_tests), unfolding(layout::specs::MemberSpans::once_at, json_values::specs::Names::part))]
fn only_text(s: &[u8], mark: MemberSpan) -> Option<&[u8]>
    requires { Placed s.now mark }
    ensures { option_map (λ t. t.now) result ≡ option_map (part s.now) (once_at mark) }
{
    if mark.times != 1 {
        return None;
    }
    Some(&s[mark.from..mark.to])
}
