// A script of calls run on one book: messages, questions and writings-out as bytes, and a reply to each.
//
//     let calls = replay::replay(Dialect::M(Edition::M1), 100, name, script, out);
//
// A call of a script is a header of six words and a message; its reply in `out` is seven words and the call's lent
// buffer. A word has eight bytes, the lowest first. docs/REPLAY.md has the table of both.
#![tactic(auto)]

mod asking;
mod words;

ghost use Rattle.std.specs.Prelude.{◌≡◌, ◌≤◌, length};
ghost use Rattle.book.specs.Shown.{shows, Good};
ghost use Rattle.replay.specs.Format.{ask_of, words_length};
ghost use Rattle.line_text.specs.Opening.{line_one};
ghost use Rattle.replay.specs.Calls.{HasHeader, Called, Replayed};

use asking::{answer, lay_reply};
use book::Book;
use line_text::read_settings;
use settings::Dialect;
use words::{REPLY_WORDS, call_length, is_whole, reply_length};

// Opens a book and makes each call of a script, up to one that is cut, that names no call, or whose reply has no room
// left in `out`. Answers how many calls were made.
pub fn replay(dialect: Dialect, depth: usize, name: &[u8], script: &[u8], out: &mut [u8]) -> usize
    ensures { Replayed (record { dialect = dialect; depth = depth; name = name.now }) script.now out.old out.new result }
{
    let mut book = book::open(dialect, depth, name);
    let mut at: usize = 0;
    let mut done: usize = 0;
    let mut calls: usize = 0;
    while is_whole(&script[at..], out.len() - done) {
        let room = out.len() - done;
        let next = at + call_length(&script[at..], room);
        let end = done + reply_length(&script[at..], room);
        call(&mut book, &script[at..next], &mut out[done..end]);
        at = next;
        done = end;
        calls += 1;
    }
    calls
}

// Makes one call on the book: its reply in its part of `out`, of which the lent buffer stands behind the words.
fn call(book: &mut Book, call: &[u8], part: &mut [u8])
    requires { (Good book.old) × (HasHeader call.now) × (words_length ≤ length part.old) }
    ensures { Called (shows book.old) (ask_of call.now) part.old part.new book.new }
{
    let reply = answer(book, call, &mut part[REPLY_WORDS..]);
    lay_reply(reply, part);
    *book = reply.book;
}

// The same with settings as text, as the line program's first line has them: dialect, depth and name, one blank between. C and Rust call it by `replay_c`.
#[unsafe(no_mangle)]
pub extern "C" fn huurqan_replay(settings: &[u8], script: &[u8], out: &mut [u8]) -> usize
    ensures { Replayed (line_one settings.now) script.now out.old out.new result }
{
    let first = read_settings(settings);
    let name = &settings[first.name..];
    replay(first.dialect, first.depth, name, script, out)
}
