// How a book stands from message to message: shut, waiting or live, which messages and questions that refuses, and the count of
// updates.
#![tactic(auto)]

ghost use Rattle.std.specs.Prelude.{◌≡◌, ◌&&◌, ◌||◌, not, cond, length};
ghost use Rattle.layout.specs.Layout.{is_snapshot};
ghost use Rattle.reference.specs.Reference.{is_shut, one_more};
ghost use Rattle.lifecycle.specs.Lifecycle.{status_of, first_state, answers, refusal_of, counts_of, live_lifecycle, refused_lifecycle, is_old_by, judged_update, judged_sides, Ruled, JudgedAs};
ghost use Rattle.edit.specs.Buffer.{buffer_words};

use answer::{Answer, leaves_state};
use edit::BUFFER_WORDS;
use layout::{Kind, Outline, is_snapshot};
use reference::Scope;
use settings::{Dialect, Rules, Settings, rules_of};

const MAX_UPDATES: u64 = 4294967295;

#[derive(Clone, Copy, Debug, PartialEq, Eq)]
pub enum State {
    // Opened with bad settings.
    Shut,
    // Until a snapshot is taken.
    Waiting,
    Live,
}

// How a book stands.
#[derive(Clone, Copy)]
pub struct Lifecycle {
    pub state: State,
    // Whether a snapshot was ever taken.
    pub had_snapshot: bool,
}

// The answer to the question how many bids and asks there are.
#[derive(Clone, Copy)]
pub struct Counts {
    pub answer: Answer,
    pub bids: usize,
    pub asks: usize,
}

#[tactic(auto, unfolding(crate::specs::Lifecycle::first_state))]
pub fn first_state(dialect: Dialect) -> State
    ensures { result ≡ first_state dialect }
{
    match dialect {
        Dialect::K | Dialect::M(_) => State::Waiting,
        Dialect::Unknown => State::Shut,
    }
}

#[tactic(auto, unfolding(crate::specs::Lifecycle::status_of, reference::specs::Reference::is_shut))]
fn is_shut(state: State) -> bool
    ensures { result ≡ is_shut (status_of state) }
{
    state == State::Shut
}

// Whether a question of that scope is answered.
#[tactic(auto, unfolding(crate::specs::Lifecycle::status_of, crate::specs::Lifecycle::answers))]
pub fn stands(lifecycle: Lifecycle, scope: Scope) -> bool
    ensures { result ≡ answers (status_of lifecycle.state) lifecycle.had_snapshot scope }
{
    let state = lifecycle.state;
    match scope {
        Scope::Current => state == State::Live,
        Scope::LastGood => state != State::Shut && lifecycle.had_snapshot,
    }
}

// The answer to a question that is refused.
#[tactic(auto, unfolding(crate::specs::Lifecycle::status_of, crate::specs::Lifecycle::refusal_of))]
pub fn refusal(lifecycle: Lifecycle) -> Answer
    ensures { result ≡ refusal_of (status_of lifecycle.state) }
{
    match lifecycle.state {
        State::Shut => Answer::Shut,
        State::Waiting | State::Live => Answer::NoSnapshot,
    }
}

// The answer to the question how many bids and asks there are, of a book that stands so and has that many.
pub fn count_levels(lifecycle: Lifecycle, scope: Scope, bids: usize, asks: usize) -> Counts
    ensures { result ≡ counts_of lifecycle scope bids asks }
{
    if stands(lifecycle, scope) {
        return Counts {
            answer: Answer::Taken,
            bids,
            asks,
        };
    }
    Counts {
        answer: refusal(lifecycle),
        bids: 0,
        asks: 0,
    }
}

// Checks 1 to 8, 10 and 11, of a book with these settings that stands so and has that sequence number. The buffer has the entries of a message that
// passes, and is free after a refusal.
pub fn judge(
    settings: Settings,
    lifecycle: Lifecycle,
    number: u64,
    s: &[u8],
    buffer: &mut [u64; BUFFER_WORDS],
) -> Result<Outline, Answer>
    requires { Ruled settings lifecycle × (length buffer.old ≡ buffer_words) }
    ensures { JudgedAs settings lifecycle number s.now buffer.new result }
{
    if is_shut(lifecycle.state) {
        return Err(Answer::Shut);
    }
    let name = &settings.name[..settings.length];
    let outline = message::read_open(settings.dialect, settings.depth, name, s, buffer)?;
    judge_update(lifecycle.state, rules_of(settings.dialect), number, outline)
}

// Checks 10 and 11, of a message that passes those of its text, to a book that has this sequence number.
#[tactic(auto, unfolding(crate::specs::Lifecycle::status_of, crate::specs::Lifecycle::judged_update, reference::specs::Reference::is_live))]
fn judge_update(
    state: State,
    rules: Rules,
    number: u64,
    outline: Outline,
) -> Result<Outline, Answer>
    ensures { result ≡ judged_update state rules number outline }
{
    if is_snapshot(outline.kind) {
        return Ok(outline);
    }
    match state {
        State::Shut | State::Waiting => Err(Answer::NoSnapshot),
        State::Live => {
            if is_old(rules, number, outline) {
                return Err(Answer::OldNumber);
            }
            Ok(outline)
        }
    }
}

// Checks 9, 12 and 16 in this order: `replaced` says that some entry set a level where one stood by then, `over` that too many levels
// stand on a side, `crossed` that the sides are crossed.
#[tactic(auto, unfolding(crate::specs::Lifecycle::judged_sides))]
pub fn judge_sides(kind: Kind, replaced: bool, over: bool, crossed: bool) -> Answer
    ensures { result ≡ judged_sides kind replaced over crossed }
{
    if is_snapshot(kind) && replaced {
        return Answer::PriceTwice;
    }
    if over {
        return Answer::TooManyLevels;
    }
    if crossed {
        return Answer::Crossed;
    }
    Answer::Taken
}

// How a book stands after a message that is taken.
#[tactic(auto, unfolding(crate::specs::Lifecycle::live_lifecycle))]
pub fn live(lifecycle: Lifecycle, kind: Kind) -> Lifecycle
    ensures { result ≡ live_lifecycle lifecycle kind }
{
    Lifecycle {
        state: State::Live,
        had_snapshot: is_snapshot(kind) || lifecycle.had_snapshot,
    }
}

// How a book stands after a refusal.
pub fn refused(lifecycle: Lifecycle, answer: Answer) -> Lifecycle
    ensures { result ≡ refused_lifecycle lifecycle answer }
{
    if leaves_state(answer) {
        return lifecycle;
    }
    Lifecycle {
        state: State::Waiting,
        had_snapshot: lifecycle.had_snapshot,
    }
}

// How many levels a side has before the entries: none before those of a snapshot.
pub fn count_before(kind: Kind, count: usize) -> usize
    ensures { result ≡ cond (is_snapshot kind) 0 count }
{
    if is_snapshot(kind) { 0 } else { count }
}

pub fn updates_after(kind: Kind, updates: u64) -> u64
    ensures { result ≡ cond (is_snapshot kind) 0 (one_more updates) }
{
    if is_snapshot(kind) {
        0
    } else {
        one_more(updates)
    }
}

// Check 11.
#[tactic(auto, unfolding(crate::specs::Lifecycle::is_old_by))]
fn is_old(rules: Rules, number: u64, outline: Outline) -> bool
    ensures { result ≡ is_old_by rules number outline }
{
    rules.numbered && (outline.number <= number || (rules.linked && outline.previous != number))
}

// Check 12; `over` says that before a cut more levels stand on a side than may. A side that is cut never has more.
pub fn is_over(cut: bool, over: bool) -> bool
    ensures { result ≡ (not cut && over) }
{
    !cut && over
}

// One more update, up to the end of the count.
fn one_more(updates: u64) -> u64
    ensures { result ≡ one_more updates }
{
    if updates < MAX_UPDATES {
        updates + 1
    } else {
        updates
    }
}
