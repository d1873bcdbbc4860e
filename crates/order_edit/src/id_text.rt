// Texts as ids.
ghost use Rattle.std.specs.Prelude.{◌≡◌, ◌≤◌};
ghost use Rattle.text.specs.Words.{word_at};
ghost use Rattle.order_edit.specs.Ids.{is_id, id_of};

use crate::Id;
use text::{byte_at, wide};

// How many bytes an id has at the most.
const MAX_ID: usize = 20;

// Whether a text is an id: 1 to 20 bytes, each as in a product name.
pub fn is_id(text: &[u8]) -> bool
    ensures { result ≡ is_id text.now }
{
    if text.is_empty() || text.len() > MAX_ID {
        return false;
    }
    settings::are_name_bytes(text)
}

// The words of an id.
pub fn id_of(text: &[u8]) -> Id
    ensures { result ≡ id_of text.now }
{
    Id {
        first: word_from(text, 0),
        second: word_from(text, 8),
        third: word_from(text, 16),
    }
}

// The bytes from a position on as one number, eight at the most, the first the lowest.
fn word_from(s: &[u8], at: usize) -> u64
    requires { at ≤ 16 }
    ensures { result ≡ word_at s.now at }
{
    wide(byte_at(s, at))
        + wide(byte_at(s, at + 1)) * 256
        + wide(byte_at(s, at + 2)) * 65536
        + wide(byte_at(s, at + 3)) * 16777216
        + wide(byte_at(s, at + 4)) * 4294967296
        + wide(byte_at(s, at + 5)) * 1099511627776
        + wide(byte_at(s, at + 6)) * 281474976710656
        + wide(byte_at(s, at + 7)) * 72057594037927936
}
