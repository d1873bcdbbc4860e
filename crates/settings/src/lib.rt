// The settings of a book: dialect, depth and product name; and the rules that a dialect has.
//
// Good settings are kept as they are given; any others are kept as none, of dialect `Unknown`, and a book of them is shut.
//
//     settings::choose(Dialect::K, 10, name)     // kept: 10 to 100 levels
//     settings::choose(Dialect::M(Edition::M1), 10, name)     // shut: M has 100 levels exactly
#![tactic(auto)]

ghost use Rattle.std.specs.Prelude.{◌≡◌, ◌≤◌, length, take};
ghost use Rattle.settings.specs.Settings.{good_depth, name_byte, name_bytes, good_name, good};
ghost use Rattle.settings.specs.Rules.{summed_in, is_linked, rules_of};
ghost use Rattle.settings.specs.Kept.{Chosen, Copied};

// The longest name.
pub const MAX_NAME: usize = 16;

const QUOTE: u8 = b'"';

#[derive(Clone, Copy, Debug, PartialEq, Eq)]
pub enum Dialect {
    K,
    M(Edition),
    Unknown,
}

// What a venue that speaks M's messages sums, and how its updates follow one another.
#[derive(Clone, Copy, Debug, PartialEq, Eq)]
pub enum Edition {
    // All levels; an update's sequence number is greater than the book's. Plain `M` means this one.
    M1,
    // The 25 best levels a side; an update also names the sequence number before it.
    M2,
}

// Which text a checksum is made of.
#[derive(Clone, Copy, Debug, PartialEq, Eq)]
pub enum SumText {
    // The asks and then the bids, digits without a point and leading zeros.
    Stripped,
    // Bids and asks in turn, as they were sent, with colons between.
    Interleaved,
}

// What one dialect has other than another.
#[derive(Clone, Copy)]
pub struct Rules {
    // The longest message.
    pub longest: usize,
    // The most entries of a side in one message.
    pub entries: usize,
    // The most levels that may stand on a side after a message.
    pub levels: usize,
    // How many levels a side are summed.
    pub summed: usize,
    pub text: SumText,
    // Whether a side is cut to the book's depth after a message.
    pub cut: bool,
    // Whether messages have sequence numbers.
    pub numbered: bool,
    // Whether an update names the sequence number before its own.
    pub linked: bool,
}

// The name is the first `length` bytes of `name`: 16 bytes in place and a count, since there is no heap.
#[derive(Clone, Copy)]
pub struct Settings {
    pub dialect: Dialect,
    pub depth: usize,
    pub name: [u8; 16],
    pub length: usize,
}

pub fn choose(dialect: Dialect, depth: usize, name: &[u8]) -> Settings
    ensures { Chosen (record { dialect = dialect; depth = depth; name = name.now }) result }
{
    if is_good(dialect, depth, name) {
        return Settings {
            dialect,
            depth,
            name: copy_name(name),
            length: name.len(),
        };
    }
    Settings {
        dialect: Dialect::Unknown,
        depth: 0,
        name: [0; 16],
        length: 0,
    }
}

pub fn is_good(dialect: Dialect, depth: usize, name: &[u8]) -> bool
    ensures { result ≡ good (record { dialect = dialect; depth = depth; name = name.now }) }
{
    is_good_depth(dialect, depth) && is_good_name(name)
}

pub fn rules_of(dialect: Dialect) -> Rules
    ensures { result ≡ rules_of dialect }
{
    match dialect {
        Dialect::K => Rules {
            longest: 32768,
            entries: 100,
            levels: 100,
            summed: 10,
            text: SumText::Stripped,
            cut: true,
            numbered: false,
            linked: false,
        },
        Dialect::M(edition) => Rules {
            longest: 32768,
            entries: 100,
            levels: 100,
            summed: summed_in(edition),
            text: SumText::Interleaved,
            cut: false,
            numbered: true,
            linked: is_linked(edition),
        },
        Dialect::Unknown => Rules {
            longest: 0,
            entries: 0,
            levels: 0,
            summed: 0,
            text: SumText::Stripped,
            cut: false,
            numbered: false,
            linked: false,
        },
    }
}

// How many levels a side are summed.
fn summed_in(edition: Edition) -> usize
    ensures { result ≡ summed_in edition }
{
    match edition {
        Edition::M1 => 100,
        Edition::M2 => 25,
    }
}

// Whether an update names the sequence number before its own.
pub fn is_linked(edition: Edition) -> bool
    ensures { result ≡ is_linked edition }
{
    edition == Edition::M2
}

fn is_good_depth(dialect: Dialect, depth: usize) -> bool
    ensures { result ≡ good_depth dialect depth }
{
    match dialect {
        Dialect::K => 10 <= depth && depth <= 100,
        Dialect::M(_) => depth == 100,
        Dialect::Unknown => false,
    }
}

fn is_good_name(name: &[u8]) -> bool
    ensures { result ≡ good_name name.now }
{
    1 <= name.len() && name.len() <= MAX_NAME && are_name_bytes(name)
}

// Whether each of these bytes may stand in a name.
pub fn are_name_bytes(name: &[u8]) -> bool
    ensures { result ≡ name_bytes name.now }
{
    name.iter().all(|c| is_name_byte(*c))
}

// A byte from 33 to 126 but for the quote and the backslash.
fn is_name_byte(c: u8) -> bool
    ensures { result ≡ name_byte c }
{
    c.is_ascii_graphic() && c != QUOTE && c != b'\\'
}

fn copy_name(name: &[u8]) -> [u8; 16]
    requires { length name.now ≤ 16 }
    ensures { Copied name.now result }
{
    let mut copy = [0; 16];
    copy[..name.len()].copy_from_slice(name);
    copy
}
