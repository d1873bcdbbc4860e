// The tokens of JSON (RFC 8259) in a slice of bytes, with no copy: blanks, structural characters,
// strings, numbers and literal names. Each function says where the token that begins at `at` ends.
//
// An end is the position past the token, and `None` says that no such token begins there. Any
// position may be asked for; past the end of the slice no token begins. Above this crate stands
// `json_values`, which makes values of the tokens.
//
// Example: in the text `{"a":-1.5}` the string that begins at 1 ends at 4 (`string_end(s, 1) == Some(4)`), the
// colon past it at 5 (`colon_end(s, 4) == Some(5)`), and the number there at 9 (`number_end(s, 5) == Some(9)`).
#![tactic(auto)]

ghost use Rattle.std.specs.Prelude.{◌≡◌, ◌+◌, ◌≤◌, ◌<◌, length};
ghost use Rattle.text.specs.Text.{colon};
ghost use Rattle.json_tokens.specs.Bytes.{comma, close_array, close_object, blank, hex_digit, escaped};
ghost use Rattle.json_tokens.specs.Ends.{four_hex, unescaped};
ghost use Rattle.json_tokens.specs.Tokens.{blanks, digits, some_digits, closing, separator, string_rest, string, minus, sign, int, fraction, exponent, json_number, literal, scalar, ended};
ghost use Rattle.json_tokens.specs.Words.{special_bytes, CharEnd};

pub use text::byte_at;
use text::{is_digit, word_at};

pub const QUOTE: u8 = b'"';

pub const BACKSLASH: u8 = b'\\';

pub const COMMA: u8 = b',';

pub const COLON: u8 = b':';

pub const OPEN_ARRAY: u8 = b'[';

pub const CLOSE_ARRAY: u8 = b']';

pub const OPEN_OBJECT: u8 = b'{';

pub const CLOSE_OBJECT: u8 = b'}';

// Most bytes are above a space, which one test tells. By `||`: of `matches!` the compiler makes three jumps.
#[tactic(auto, using(std::proofs::lemmas::Bool::Decides::nat_tests), unfolding(crate::specs::Bytes::blank))]
fn is_blank(c: u8) -> bool
    ensures { result ≡ blank c }
{
    c <= b' ' && (c == b' ' || c == b'\t' || c == b'\n' || c == b'\r')
}

#[tactic(auto, using(std::proofs::lemmas::Bool::Decides::nat_tests), unfolding(crate::specs::Bytes::hex_digit, text::specs::Text::is_digit))]
fn is_hex(c: u8) -> bool
    ensures { result ≡ hex_digit c }
{
    matches!(c, b'0'..=b'9' | b'A'..=b'F' | b'a'..=b'f')
}

// Whether c ends a two-character escape.
#[tactic(auto, using(std::proofs::lemmas::Bool::Decides::nat_tests), unfolding(crate::specs::Bytes::escaped))]
fn is_escaped(c: u8) -> bool
    ensures { result ≡ escaped c }
{
    matches!(c, b'"' | b'\\' | b'/' | b'b' | b'f' | b'n' | b'r' | b't')
}

// The position past the blanks that begin at `at`, of which there may be none.
pub fn skip_blanks(s: &[u8], at: usize) -> usize
    ensures { result ≡ blanks s.now at }
{
    let mut i = at;
    while is_blank(byte_at(s, i)) {
        i += 1;
    }
    i
}

// Whether nothing but blanks stands from `at` to the end of the text.
pub fn is_ended(s: &[u8], at: usize) -> bool
    ensures { result ≡ ended s.now at }
{
    skip_blanks(s, at) == s.len()
}

// Past the blanks and the byte `close`, which is not the 0 that `byte_at` gives past the end.
fn closing_end(s: &[u8], at: usize, close: u8) -> Option<usize>
    requires { 0 < close }
    ensures { result ≡ closing close s.now at }
{
    let k = skip_blanks(s, at);
    if byte_at(s, k) == close {
        Some(k + 1)
    } else {
        None
    }
}

// Past the bracket that closes an array, with the blanks before it.
pub fn array_close_end(s: &[u8], at: usize) -> Option<usize>
    ensures { result ≡ closing close_array s.now at }
{
    closing_end(s, at, CLOSE_ARRAY)
}

// Past the brace that closes an object, with the blanks before it.
pub fn object_close_end(s: &[u8], at: usize) -> Option<usize>
    ensures { result ≡ closing close_object s.now at }
{
    closing_end(s, at, CLOSE_OBJECT)
}

// Past the blanks, the byte `byte`, which is not the 0 past the end, and the blanks past it.
fn separator_end(s: &[u8], at: usize, byte: u8) -> Option<usize>
    requires { 0 < byte }
    ensures { result ≡ separator byte s.now at }
{
    let k = skip_blanks(s, at);
    if byte_at(s, k) == byte {
        Some(skip_blanks(s, k + 1))
    } else {
        None
    }
}

// Past the comma between two items, with the blanks on both sides: where the next item begins.
pub fn comma_end(s: &[u8], at: usize) -> Option<usize>
    ensures { result ≡ separator comma s.now at }
{
    separator_end(s, at, COMMA)
}

// Past the colon of a member, with the blanks on both sides: where its value begins.
pub fn colon_end(s: &[u8], at: usize) -> Option<usize>
    ensures { result ≡ separator colon s.now at }
{
    separator_end(s, at, COLON)
}

// Whether four hex digits stand at i.
fn is_four_hex(s: &[u8], i: usize) -> bool
    ensures { result ≡ four_hex s.now i }
{
    is_hex(byte_at(s, i))
        && is_hex(byte_at(s, i + 1))
        && is_hex(byte_at(s, i + 2))
        && is_hex(byte_at(s, i + 3))
}

// Whether c stands for itself in a string.
#[tactic(auto, using(std::proofs::lemmas::Bool::Decides::nat_tests), unfolding(crate::specs::Ends::unescaped))]
fn is_unescaped(c: u8) -> bool
    ensures { result ≡ unescaped c }
{
    b' ' <= c && c != QUOTE && c != BACKSLASH
}

// Eight times the byte 127, 128, 96, a quote, a backslash.
const LOW: u64 = 0x7f7f_7f7f_7f7f_7f7f;

const HIGH: u64 = 0x8080_8080_8080_8080;

const GAP: u64 = 0x6060_6060_6060_6060;

const QUOTES: u64 = 0x2222_2222_2222_2222;

const BACKSLASHES: u64 = 0x5c5c_5c5c_5c5c_5c5c;

// The high bit of each byte of x that does not stand for itself in a string.
fn special_bytes(x: u64) -> u64
    ensures { result ≡ special_bytes x }
{
    let low = x & LOW;
    let above = low + GAP;
    let no_quote = (low ^ QUOTES) + LOW;
    let no_backslash = (low ^ BACKSLASHES) + LOW;
    (((above & no_quote & no_backslash) | x) & HIGH) ^ HIGH
}

// Past bytes that stand for themselves, eight at a time, up to the first that does not or to the last seven of the text.
fn skip_plain(s: &[u8], at: usize) -> usize
    requires { at ≤ length s.now }
    ensures { string_rest s.now result ≡ string_rest s.now at }
{
    let mut i = at;
    while i + 8 <= s.len() {
        let special = special_bytes(word_at(s, i));
        if special != 0 {
            return i + special.trailing_zeros() as usize / 8;
        }
        i += 8;
    }
    i
}

// Past the character of a string at i, one byte or an escape. A quote is none.
fn char_end(s: &[u8], i: usize) -> Option<usize>
    ensures { CharEnd s.now i result }
{
    let c = byte_at(s, i);
    if is_unescaped(c) {
        return Some(i + 1);
    }
    if c != BACKSLASH {
        return None;
    }
    match byte_at(s, i + 1) {
        b'u' if is_four_hex(s, i + 2) => Some(i + 6),
        b'u' => None,
        d if is_escaped(d) => Some(i + 2),
        _ => None,
    }
}

// Past a string, from past its first quote, a character at a time.
fn string_rest_end(s: &[u8], at: usize) -> Option<usize>
    ensures { result ≡ string_rest s.now at }
{
    let mut i = at;
    while byte_at(s, i) != QUOTE {
        i = char_end(s, i)?;
    }
    Some(i + 1)
}

// Past a string, quotes included. Most have no escape, and end where `skip_plain` stops.
pub fn string_end(s: &[u8], at: usize) -> Option<usize>
    ensures { result ≡ string s.now at }
{
    if byte_at(s, at) != QUOTE {
        return None;
    }
    let k = skip_plain(s, at + 1);
    if byte_at(s, k) == QUOTE {
        Some(k + 1)
    } else {
        string_rest_end(s, k)
    }
}

fn skip_digits(s: &[u8], at: usize) -> usize
    ensures { result ≡ digits s.now at }
{
    let mut i = at;
    while is_digit(byte_at(s, i)) {
        i += 1;
    }
    i
}

// Past one digit or more.
fn some_digits_end(s: &[u8], at: usize) -> Option<usize>
    ensures { result ≡ some_digits s.now at }
{
    if is_digit(byte_at(s, at)) {
        Some(skip_digits(s, at))
    } else {
        None
    }
}

// Past a minus sign, if one stands there.
fn skip_minus(s: &[u8], at: usize) -> usize
    ensures { result ≡ minus s.now at }
{
    if byte_at(s, at) == b'-' { at + 1 } else { at }
}

// Past a plus or a minus sign, if one stands there.
fn skip_sign(s: &[u8], at: usize) -> usize
    ensures { result ≡ sign s.now at }
{
    match byte_at(s, at) {
        b'+' | b'-' => at + 1,
        _ => at,
    }
}

fn int_end(s: &[u8], at: usize) -> Option<usize>
    ensures { result ≡ int s.now at }
{
    if byte_at(s, at) == b'0' {
        Some(at + 1)
    } else {
        some_digits_end(s, at)
    }
}

// Past a fraction, if one stands there: `at` itself if not, none if its digits are missing.
fn fraction_end(s: &[u8], at: usize) -> Option<usize>
    ensures { result ≡ fraction s.now at }
{
    if byte_at(s, at) == b'.' {
        some_digits_end(s, at + 1)
    } else {
        Some(at)
    }
}

// Past an exponent, if one stands there: `at` itself if not, none if its digits are missing.
fn exponent_end(s: &[u8], at: usize) -> Option<usize>
    ensures { result ≡ exponent s.now at }
{
    match byte_at(s, at) {
        b'e' | b'E' => some_digits_end(s, skip_sign(s, at + 1)),
        _ => Some(at),
    }
}

// Past a number.
pub fn number_end(s: &[u8], at: usize) -> Option<usize>
    ensures { result ≡ json_number s.now at }
{
    let j = int_end(s, skip_minus(s, at))?;
    let k = fraction_end(s, j)?;
    exponent_end(s, k)
}

// Past the bytes of w.
pub fn word_end(s: &[u8], at: usize, w: &[u8]) -> Option<usize>
    ensures { result ≡ literal w.now s.now at }
{
    let mut i = at;
    for b in w {
        if s.get(i)? != b {
            return None;
        }
        i += 1;
    }
    Some(i)
}

// Past a string, a number or a literal name.
pub fn scalar_end(s: &[u8], at: usize) -> Option<usize>
    ensures { result ≡ scalar s.now at }
{
    match byte_at(s, at) {
        QUOTE => string_end(s, at),
        b't' => word_end(s, at, b"true"),
        b'f' => word_end(s, at, b"false"),
        b'n' => word_end(s, at, b"null"),
        _ => number_end(s, at),
    }
}
