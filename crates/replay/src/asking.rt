// One call of a script: made on the book by its method, and its answer as the words of a reply.
ghost use Rattle.std.specs.Prelude.{◌≡◌, ◌≤◌, length};
ghost use Rattle.writer.specs.Parts.{Put};
ghost use Rattle.book.specs.Shown.{shows, Good};
ghost use Rattle.replay.specs.Format.{ask_of, scope_of, side_of, words_length, words_of};
ghost use Rattle.reference.specs.Reference.{message, question, how_many, level_at, which_number, how_many_updates, write};
ghost use Rattle.replay.specs.Calls.{HasHeader, Answered, AnsweredAlone, words_in, step_replied, counts_replied, level_replied, number_replied};

use crate::words::{HEADER, INDEX, OPCODE, SCOPE, SIDE, lay_word};
use answer::number_of;
use book::{Book, CountsReply, LevelReply, NumberReply, Step};
use edit::Side;
use reference::Scope;
use text::word_at;

// The words of a reply, and the book after the call.
#[derive(Clone, Copy)]
pub struct Replied {
    pub book: Book,
    pub answer: u64,
    // The words behind the answer.
    pub words: [u64; 6],
}

// Makes the call that a header asks for. Each kind of call is a function of its own, which is lent the book: the copies that it makes of the book
// then share one place on the stack.
pub fn answer(book: &Book, call: &[u8], buffer: &mut [u8]) -> Replied
    requires { (Good book.now) × (HasHeader call.now) }
    ensures { Answered (shows book.now) (ask_of call.now) buffer.old buffer.new result }
{
    let opcode = word_at(call, OPCODE);
    if opcode == 0 {
        return take(book, &call[HEADER..]);
    }
    let scope = scope_of(word_at(call, SCOPE));
    // Tests one after another: of the last arm of a `match` on numbers a proof cannot name what it is not.
    if opcode == 1 {
        return counts(book, scope);
    }
    if opcode == 2 {
        let side = side_of(word_at(call, SIDE));
        let i = word_at(call, INDEX) as usize;
        return level(book, scope, side, i);
    }
    if opcode == 3 {
        return number(book, scope);
    }
    if opcode == 4 {
        return updates(book, scope);
    }
    write(book, buffer)
}

#[inline(never)]
fn take(book: &Book, s: &[u8]) -> Replied
    requires { Good book.now }
    ensures { AnsweredAlone (shows book.now) (message s.now) result }
{
    step_replied(book.take(s))
}

#[inline(never)]
fn counts(book: &Book, scope: Scope) -> Replied
    requires { Good book.now }
    ensures { AnsweredAlone (shows book.now) (question (how_many scope)) result }
{
    counts_replied(book.counts(scope))
}

#[inline(never)]
fn level(book: &Book, scope: Scope, side: Side, i: usize) -> Replied
    requires { Good book.now }
    ensures { AnsweredAlone (shows book.now) (question (level_at scope side i)) result }
{
    level_replied(book.level(scope, side, i))
}

#[inline(never)]
fn number(book: &Book, scope: Scope) -> Replied
    requires { Good book.now }
    ensures { AnsweredAlone (shows book.now) (question (which_number scope)) result }
{
    number_replied(book.number(scope))
}

#[inline(never)]
fn updates(book: &Book, scope: Scope) -> Replied
    requires { Good book.now }
    ensures { AnsweredAlone (shows book.now) (question (how_many_updates scope)) result }
{
    number_replied(book.updates(scope))
}

#[inline(never)]
fn write(book: &Book, buffer: &mut [u8]) -> Replied
    requires { Good book.now }
    ensures { Answered (shows book.now) (question write) buffer.old buffer.new result }
{
    number_replied(book.write(buffer))
}

// Lays the words of a reply, and answers the position past them.
pub fn lay_reply(reply: Replied, part: &mut [u8]) -> usize
    requires { words_length ≤ length part.old }
    ensures { Put part.old 0 (words_of (words_in reply)) part.new result }
{
    let mut end = lay_word(reply.answer, part, 0);
    for word in reply.words {
        end = lay_word(word, part, end);
    }
    end
}

#[tactic(auto, unfolding(crate::specs::Format::scope_of))]
fn scope_of(n: u64) -> Scope
    ensures { result ≡ scope_of n }
{
    match n {
        0 => Scope::Current,
        _ => Scope::LastGood,
    }
}

#[tactic(auto, unfolding(crate::specs::Format::side_of))]
fn side_of(n: u64) -> Side
    ensures { result ≡ side_of n }
{
    match n {
        0 => Side::Bids,
        _ => Side::Asks,
    }
}

fn step_replied(step: Step) -> Replied
    ensures { result ≡ step_replied step }
{
    let book = step.book;
    let answer = step.answer;
    Replied {
        book,
        answer: number_of(answer),
        words: [step.moved as u64, 0, 0, 0, 0, 0],
    }
}

fn counts_replied(counts: CountsReply) -> Replied
    ensures { result ≡ counts_replied counts }
{
    let book = counts.book;
    let answer = counts.answer;
    Replied {
        book,
        answer: number_of(answer),
        words: [counts.bids as u64, counts.asks as u64, 0, 0, 0, 0],
    }
}

fn level_replied(level: LevelReply) -> Replied
    ensures { result ≡ level_replied level }
{
    let book = level.book;
    let answer = level.answer;
    let price = decimal::split_of(level.price);
    let size = decimal::split_of(level.size);
    Replied {
        book,
        answer: number_of(answer),
        words: [
            price.digits,
            price.past,
            price.decimals,
            size.digits,
            size.past,
            size.decimals,
        ],
    }
}

fn number_replied(amount: NumberReply) -> Replied
    ensures { result ≡ number_replied amount }
{
    let book = amount.book;
    let answer = amount.answer;
    Replied {
        book,
        answer: number_of(answer),
        words: [amount.value, 0, 0, 0, 0, 0],
    }
}
