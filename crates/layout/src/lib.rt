// What one walk over a message tells of it, in either dialect: everything that the checks need, so that the first refusal that
// fits is chosen afterwards.
#![tactic(auto)]

ghost use Rattle.std.specs.Prelude.{◌≡◌};
ghost use Rattle.layout.specs.MemberSpans.{few_more, no_member_span, with_member_span};
ghost use Rattle.layout.specs.Layout.{is_snapshot};
ghost use Rattle.layout.specs.Scan.{bad_at, outline_from, no_outline, not_framed};

use entries::Tally;
use json_values::MAX_DEPTH;

// How deep arrays and objects may nest in an item of the message (an element in K, a member in M), and in an item of that, as a
// side's array of entries is one.
pub const ITEM_DEPTH: usize = MAX_DEPTH - 1;

pub const SIDE_DEPTH: usize = ITEM_DEPTH - 1;

// What kind of message it is.
#[derive(Clone, Copy)]
pub enum Kind {
    // Replaces the book.
    Snapshot,
    // Changes single levels.
    Update,
}

// The layout of a message.
#[derive(Clone, Copy)]
pub struct Outline {
    // How many entries there are for each side.
    pub bids: usize,
    pub asks: usize,
    // Where the first entry begins whose price or size breaks a rule of decimals, or 0 where there is none.
    pub bad_at: usize,
    // The sequence number, 0 where the dialect has none.
    pub number: u64,
    // The sequence number before it, 0 where the message names none.
    pub previous: u64,
    pub checksum: u32,
    // Whether the layout is right. If not, the rest says nothing.
    pub well_formed: bool,
    pub kind: Kind,
    // Whether the message carries a checksum.
    pub printed: bool,
}

#[derive(Clone, Copy)]
pub struct Scan {
    // Past the message's value, or 0 where it is not JSON.
    pub end: usize,
    pub outline: Outline,
    // Whether it has the outer form of the dialect. If not, the rest but for the end says nothing.
    pub framed: bool,
    // Whether it is this book's.
    pub ours: bool,
}

// How often a member of one name was met, and where the value of the last one lies.
#[derive(Clone, Copy)]
pub struct MemberSpan {
    // 0, 1, or 2 for more often.
    pub times: usize,
    pub from: usize,
    pub to: usize,
}

// Whether a message of that kind is a snapshot.
pub fn is_snapshot(kind: Kind) -> bool
    ensures { result ≡ is_snapshot kind }
{
    match kind {
        Kind::Snapshot => true,
        Kind::Update => false,
    }
}

// The layout of a message of these entries, if they are entries.
pub fn outline_of(kind: Kind, tally: Tally, printed: bool, checksum: u32, number: u64) -> Outline
    ensures { result ≡ outline_from kind tally printed checksum number }
{
    if tally.well_formed {
        return Outline {
            well_formed: true,
            kind,
            bids: tally.bids,
            asks: tally.asks,
            bad_at: bad_at(kind, tally),
            printed,
            checksum,
            number,
            previous: 0,
        };
    }
    no_outline()
}

// Where the first entry begins that a message of that kind must not have.
fn bad_at(kind: Kind, tally: Tally) -> usize
    ensures { result ≡ bad_at kind tally }
{
    if is_snapshot(kind) {
        tally.strict_at
    } else {
        tally.broken_at
    }
}

// A layout that is broken.
pub fn no_outline() -> Outline
    ensures { result ≡ no_outline }
{
    Outline {
        well_formed: false,
        kind: Kind::Update,
        bids: 0,
        asks: 0,
        bad_at: 0,
        printed: false,
        checksum: 0,
        number: 0,
        previous: 0,
    }
}

// A value that ends at `end` and has not the dialect's outer form.
pub fn not_framed(end: usize) -> Scan
    ensures { result ≡ not_framed end }
{
    Scan {
        end,
        framed: false,
        ours: false,
        outline: no_outline(),
    }
}

pub fn no_member_span() -> MemberSpan
    ensures { result ≡ no_member_span }
{
    MemberSpan {
        times: 0,
        from: 0,
        to: 0,
    }
}

// One more member, whose value lies from `from` to `to`.
pub fn with_member_span(mark: MemberSpan, from: usize, to: usize) -> MemberSpan
    ensures { result ≡ with_member_span mark (record { from = from; to = to }) }
{
    MemberSpan {
        times: few_more(mark.times),
        from,
        to,
    }
}

// One more of what is counted up to two.
pub fn few_more(times: usize) -> usize
    ensures { result ≡ few_more times }
{
    if times == 0 { 1 } else { 2 }
}
