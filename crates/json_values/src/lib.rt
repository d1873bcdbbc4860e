// JSON (RFC 8259) in a slice of bytes, with no copy: where a value, an array or an object ends, and
// whether a string is a given name.
//
// Any position may be asked for. `depth` is how deep arrays and objects may nest in what is read;
// a whole text has MAX_DEPTH, and what lies in an array or an object has one less than it has.
// An end is the position past what was passed over, or `None` where it is not JSON: so a loop over a
// message finds out whether it is JSON while it reads. The loops over the messages and their entries
// stand in the crates above, and take commas and brackets from `json_tokens`.
//
// Example: past the elements of the array at the start of a text, which begin past its bracket.
//
//     let mut e = json_values::value_end(s, skip_blanks(s, 1), json_values::MAX_DEPTH - 1)?;
//     while let Some(next) = comma_end(s, e) {
//         e = json_values::value_end(s, next, json_values::MAX_DEPTH - 1)?;
//     }
//     array_close_end(s, e)
#![tactic(auto)]

ghost use Rattle.std.specs.Prelude.{◌≡◌, cond, eqb, ◌-◌, ◌≤◌, ◌<◌, length, take, drop};
ghost use Rattle.json_values.specs.Json.{items_end, elements, members, value};
ghost use Rattle.json_values.specs.Ends.{held_value, container_end, close_end};
ghost use Rattle.json_values.specs.Names.{short_meaning, hex_value, escape_meaning, meaning, same, means};
ghost use Rattle.json_values.specs.Escapes.{PastEscape, Spelled, begins_otherwise, PlainEnd};

use json_tokens::{
    BACKSLASH, OPEN_ARRAY, OPEN_OBJECT, QUOTE, array_close_end, colon_end, comma_end, number_end,
    object_close_end, scalar_end, skip_blanks, string_end,
};
use text::byte_at;

// How deep arrays and objects may nest in a text, the outermost counting as one.
pub const MAX_DEPTH: usize = 16;

// The letter of an escape that has four hex digits.
const LONG_ESCAPE: u8 = b'u';

// Past the value at `at`.
#[cycle(values)]
pub fn value_end(s: &[u8], at: usize, depth: usize) -> Option<usize>
    ensures { result ≡ value depth s.now at }
{
    match byte_at(s, at) {
        QUOTE => string_end(s, at),
        OPEN_ARRAY if 0 < depth => container_end(s, at + 1, depth - 1, Container::Array),
        OPEN_OBJECT if 0 < depth => container_end(s, at + 1, depth - 1, Container::Object),
        _ => scalar_end(s, at),
    }
}

// Past the value at `at`, as `value_end` has it. It is inlined, so that a string or a number costs one call.
pub fn item_end(s: &[u8], at: usize, depth: usize) -> Option<usize>
    ensures { result ≡ value depth s.now at }
{
    match byte_at(s, at) {
        QUOTE => string_end(s, at),
        b'0'..=b'9' => number_end(s, at),
        _ => value_end(s, at, depth),
    }
}

// Past an array, from past its bracket.
pub fn array_end(s: &[u8], at: usize, depth: usize) -> Option<usize>
    ensures { result ≡ items_end (elements (value depth s.now) s.now at) }
{
    container_end(s, at, depth, Container::Array)
}

// Past an object, from past its brace.
pub fn object_end(s: &[u8], at: usize, depth: usize) -> Option<usize>
    ensures { result ≡ items_end (members (value depth s.now) s.now at) }
{
    container_end(s, at, depth, Container::Object)
}

// What holds items in brackets: an array its elements, an object its members.
#[derive(Clone, Copy)]
enum Container {
    Array,
    Object,
}

// Past an array or an object, from past its bracket. It is inlined, so that each kind has a loop of its own.
#[cycle(values)]
#[inline(always)]
fn container_end(s: &[u8], at: usize, depth: usize, container: Container) -> Option<usize>
    ensures { result ≡ container_end container (value depth s.now) s.now at }
{
    if let Some(empty) = close_end(s, at, container) {
        return Some(empty);
    }
    let first = held_value(s, skip_blanks(s, at), container)?;
    let mut e = value_end(s, first, depth)?;
    while let Some(next) = comma_end(s, e) {
        e = value_end(s, held_value(s, next, container)?, depth)?;
    }
    close_end(s, e, container)
}

// Past the bracket that closes it, with the blanks before it.
fn close_end(s: &[u8], at: usize, container: Container) -> Option<usize>
    ensures { result ≡ close_end container s.now at }
{
    match container {
        Container::Array => array_close_end(s, at),
        Container::Object => object_close_end(s, at),
    }
}

// Where the value of an item begins: an element is one, and a member has it past its name and a colon.
fn held_value(s: &[u8], at: usize, container: Container) -> Option<usize>
    ensures { result ≡ held_value container s.now at }
{
    match container {
        Container::Array => Some(at),
        Container::Object => colon_end(s, string_end(s, at)?),
    }
}

// Whether the string from `from` to `to`, quotes included, means the name. Most strings that do not are told by their first byte, before
// any call is made.
#[inline(always)]
pub fn is_name(s: &[u8], from: usize, to: usize, name: &[u8]) -> bool
    ensures { result ≡ means s.now (record { from = from; to = to }) name.now }
{
    if byte_at(s, from) != QUOTE {
        return false;
    }
    let first = from + 1;
    !begins_otherwise(byte_at(s, first), name) && is_between(s, first, to, name)
}

// Whether a string that begins with this byte cannot mean the name: it begins neither with the name's first byte nor with an escape.
#[tactic(auto, using(std::proofs::lemmas::Bool::Decides::nat_tests), unfolding(crate::specs::Escapes::begins_otherwise))]
fn begins_otherwise(c: u8, name: &[u8]) -> bool
    ensures { result ≡ begins_otherwise c name.now }
{
    !name.is_empty() && c != name[0] && c != BACKSLASH
}

// Whether the bytes from past the first quote of a string that ends at `to` mean the name. What they mean is no longer than they are, so
// that a length tells of some that they do not.
fn is_between(s: &[u8], first: usize, to: usize, name: &[u8]) -> bool
    requires { first ≤ length s.now }
    ensures { result ≡ same (meaning 0 (take (to - 1 - first) (drop first s.now))) name.now }
{
    if to <= first {
        return name.is_empty();
    }
    let last = to - 1;
    if last - first < name.len() {
        return false;
    }
    spells(&s[first..last.min(s.len())], name)
}

// Whether the bytes between two quotes mean the name. Most strings have no escape, and are compared byte by byte. It is a call, and `is_name` is none.
#[inline(never)]
fn spells(t: &[u8], name: &[u8]) -> bool
    ensures { result ≡ same (meaning 0 t.now) name.now }
{
    let k = plain_end(t, name);
    if t.len() <= k {
        return k == name.len();
    }
    t[k] == BACKSLASH && spells_from(t, k, name)
}

// How many bytes stand for themselves and are the name's, from the first on.
fn plain_end(t: &[u8], name: &[u8]) -> usize
    ensures { PlainEnd t.now name.now result }
{
    for (k, b) in name.iter().enumerate() {
        if t.len() <= k || t[k] != *b || *b == BACKSLASH {
            return k;
        }
    }
    name.len()
}

// Whether the bytes from a place on mean what is left of the name from that place on.
fn spells_from(t: &[u8], at: usize, name: &[u8]) -> bool
    requires { at ≤ length name.now }
    ensures { result ≡ same (meaning 0 (drop at t.now)) (drop at name.now) }
{
    let mut i = at;
    for b in &name[at..] {
        if t.len() <= i {
            return false;
        }
        let Some(next) = past_character(t, i, *b) else {
            return false;
        };
        i = next;
    }
    t.len() <= i
}

// Past the character at i if it means b.
fn past_character(t: &[u8], i: usize, b: u8) -> Option<usize>
    requires { i < length t.now }
    ensures { Spelled t.now i b result }
{
    if t[i] == BACKSLASH {
        if escape_meaning(&t[i + 1..]) == u64::from(b) {
            return Some(past_escape(t, i));
        }
        return None;
    }
    if t[i] == b { Some(i + 1) } else { None }
}

// What an escape means, from past its backslash on.
fn escape_meaning(t: &[u8]) -> u64
    ensures { result ≡ escape_meaning t.now }
{
    let c = byte_at(t, 0);
    if c == LONG_ESCAPE {
        let upper = hex_value(byte_at(t, 1)) * 16 + hex_value(byte_at(t, 2));
        return (upper * 16 + hex_value(byte_at(t, 3))) * 16 + hex_value(byte_at(t, 4));
    }
    short_meaning(c)
}

// What a two-character escape means, by its second character.
#[tactic(auto, using(std::proofs::lemmas::Bool::Decides::nat_tests), unfolding(crate::specs::Names::short_meaning))]
fn short_meaning(c: u8) -> u64
    ensures { result ≡ short_meaning c }
{
    match c {
        b'b' => 8,
        b'f' => 12,
        b'n' => 10,
        b'r' => 13,
        b't' => 9,
        _ => u64::from(c),
    }
}

// The value of a hex digit, of either case.
#[tactic(auto, using(std::proofs::lemmas::Bool::Decides::nat_tests), unfolding(crate::specs::Names::hex_value, text::specs::Text::is_digit))]
fn hex_value(c: u8) -> u64
    ensures { (result ≡ hex_value c) × (result < 256) }
{
    u64::from(match c {
        b'0'..=b'9' => c - b'0',
        b'a'.. => c - b'a' + 10,
        _ => c.saturating_sub(b'A' - 10),
    })
}

// Past the escape whose backslash stands at i, or past the end where the text ends within it.
fn past_escape(t: &[u8], i: usize) -> usize
    requires { i < length t.now }
    ensures { PastEscape t.now i result }
{
    let n = escape_length(byte_at(t, i + 1));
    i + 1 + n.min(t.len() - i - 1)
}

// How many bytes an escape has past its backslash, by the first of them.
fn escape_length(c: u8) -> usize
    ensures { result ≡ cond (eqb c 117) 5 1 }
{
    if c == LONG_ESCAPE { 5 } else { 1 }
}
