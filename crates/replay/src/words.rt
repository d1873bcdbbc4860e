// The words of a script and of its replies: eight bytes each, the lowest first.
ghost use Rattle.std.specs.Prelude.{◌≡◌, true, ◌+◌, ◌-◌, ◌≤◌, ◌<◌, length};
ghost use Rattle.writer.specs.Parts.{Put};
ghost use Rattle.replay.specs.Format.{bytes_of, is_whole, call_length, reply_length};

use text::word_at;
use writer::lay;

// A call's header is six words: what is asked, scope, side, index, the lengths of the lent buffer and of the message.
pub const HEADER: usize = 48;

pub const OPCODE: usize = 0;

pub const SCOPE: usize = 8;

pub const SIDE: usize = 16;

pub const INDEX: usize = 24;

const BUFFER_LENGTH: usize = 32;

const MESSAGE_LENGTH: usize = 40;

const LAST_OPCODE: u64 = 5;

// A reply begins with seven words.
pub const REPLY_WORDS: usize = 56;

// Lays a word at a position, and answers the position past it.
pub fn lay_word(n: u64, part: &mut [u8], at: usize) -> usize
    requires { at + 8 ≤ length part.old }
    ensures { Put part.old at (bytes_of 8 n) part.new result }
{
    lay(&n.to_le_bytes(), part, at)
}

// Whether a script begins with a whole call, and so many bytes hold its reply.
pub fn is_whole(s: &[u8], room: usize) -> bool
    ensures { result ≡ is_whole s.now room }
{
    if s.len() < HEADER {
        return false;
    }
    if LAST_OPCODE < word_at(s, OPCODE) {
        return false;
    }
    if s.len() - HEADER < word_at(s, MESSAGE_LENGTH) as usize {
        return false;
    }
    if room < REPLY_WORDS {
        return false;
    }
    word_at(s, BUFFER_LENGTH) as usize <= room - REPLY_WORDS
}

// How many bytes the first call takes.
pub fn call_length(s: &[u8], room: usize) -> usize
    requires { is_whole s.now room ≡ true }
    ensures { result ≡ call_length s.now }
{
    HEADER + word_at(s, MESSAGE_LENGTH) as usize
}

// How many bytes its reply takes.
pub fn reply_length(s: &[u8], room: usize) -> usize
    requires { is_whole s.now room ≡ true }
    ensures { result ≡ reply_length s.now }
{
    REPLY_WORDS + word_at(s, BUFFER_LENGTH) as usize
}
